//! The rows of docs/REFERENCE.md, by table. `.ci/reference --make` writes this file.

use crate::about::Row;

/// The rows of 'A script'.
pub(crate) fn a_script() -> [Row; 8] {
    [
        Row {
            words: &["M"],
            text: "word M\n  What it is: a mask of CPUs: the sum of 2^C for each CPU C in it, in decimal\n  Range: 0 to 340282366920938463463374607431768211455\n",
        },
        Row {
            words: &["C"],
            text: "word C\n  What it is: a CPU, counted from 0\n  Range: 0 to 65,535; one past the last is refused BadCpu\n",
        },
        Row {
            words: &["T"],
            text: "word T\n  What it is: a thread's number; the kernel gives 1, 2, 3 and so on\n  Range: 0 to 4,294,967,295; one that does not live is refused NoThread\n",
        },
        Row {
            words: &["N"],
            text: "word N\n  What it is: a count, or the number of a transaction\n  Range: 0 to 4,294,967,295; of `page` 0 to 65,535\n",
        },
        Row {
            words: &["CLASS"],
            text: "word CLASS\n  What it is: the scheduling class: 0 is served before 1\n  Range: 0 or 1\n",
        },
        Row {
            words: &["r", "b"],
            text: "word R: `r`, `b`\n  What it is: whether the thread may run (`r`) or is blocked (`b`)\n  Range: `r`, `b`\n",
        },
        Row {
            words: &["NAME"],
            text: "word NAME\n  What it is: a name of bytes 33 to 126; `-` alone says that the thread has none\n  Range: 1 to 16 bytes\n",
        },
        Row {
            words: &["S"],
            text: "word S\n  What it is: ticks that a thread of class 1 has before another of class 1 may take its CPU\n  Range: 1 to 65,535\n",
        },
    ]
}

/// The rows of 'The header'.
pub(crate) fn the_header() -> [Row; 7] {
    [
        Row {
            words: &["cpus"],
            text: "part of the header `cpus` C\n  What it says: how many CPUs the enclave has\n  Range: 2 to 128\n",
        },
        Row {
            words: &["ring"],
            text: "part of the header `ring` B\n  What it says: how many bytes the message ring has\n  Range: 128 to 1,048,576, a multiple of 8\n",
        },
        Row {
            words: &["first-tseq"],
            text: "part of the header `first-tseq` N\n  What it says: sequence numbers begin above this one\n  Range: 0 to 4,294,967,294\n  Without it: 0\n",
        },
        Row {
            words: &["first-gen"],
            text: "part of the header `first-gen` N\n  What it says: the generation of the first agent\n  Range: 1 to 4,294,967,295\n  Without it: 1\n",
        },
        Row {
            words: &["history"],
            text: "part of the header `history` N\n  What it says: the most entries of the journal, and the most transactions\n  Range: 2 to 16,777,216\n  Without it: 16,777,216\n",
        },
        Row {
            words: &["policy", "first"],
            text: "part of the header `policy first`\n  What it says: waiting threads take the free CPUs, in order\n  Without it: this one\n",
        },
        Row {
            words: &["policy", "two"],
            text: "part of the header `policy two` S\n  What it says: as `policy first`, and threads of class 0, or after S ticks of class 1, take CPUs from threads of class 1\n  Range: 1 to 65,535\n",
        },
    ]
}

/// The rows of 'Threads and CPUs'.
pub(crate) fn threads_and_cpus() -> [Row; 9] {
    [
        Row {
            words: &["create"],
            text: "line `create` M CLASS R NAME\n  What happens: a thread is created, and gets the next number\n  Refused, in this order: EmptyMask, TidsSpent\n  Reply: `created T seq S`\n",
        },
        Row {
            words: &["block"],
            text: "line `block` T\n  What happens: it blocks, and is off its CPU\n  Refused, in this order: NoThread, NotRunning, SeqSpent\n  Reply: `blocked T seq S`\n",
        },
        Row {
            words: &["wake"],
            text: "line `wake` T\n  What happens: it may run again\n  Refused, in this order: NoThread, NotBlocked, SeqSpent\n  Reply: `woken T seq S`\n",
        },
        Row {
            words: &["yield"],
            text: "line `yield` T\n  What happens: it gives up its CPU, and may run on\n  Refused, in this order: NoThread, NotRunning, SeqSpent\n  Reply: `yielded T seq S`\n",
        },
        Row {
            words: &["die"],
            text: "line `die` T\n  What happens: it ends\n  Refused, in this order: NoThread, SeqSpent\n  Reply: `dead T seq S`\n",
        },
        Row {
            words: &["affinity"],
            text: "line `affinity` T M\n  What happens: it may run on the CPUs of the mask alone. If it is on another, it is taken off\n  Refused, in this order: NoThread, EmptyMask, SeqSpent\n  Reply: `affinity T seq S`, and ` off C` if it was taken off\n",
        },
        Row {
            words: &["take"],
            text: "line `take` C\n  What happens: the other class takes the CPU. PREEMPTED of the thread there is posted first\n  Refused, in this order: BadCpu, AgentThere, CpuTaken, SeqSpent (of the thread there)\n  Reply: `taken C`\n",
        },
        Row {
            words: &["give"],
            text: "line `give` C\n  What happens: the other class gives the CPU back\n  Refused, in this order: BadCpu, NotTaken\n  Reply: `given C`\n",
        },
        Row {
            words: &["tick"],
            text: "line `tick` C\n  What happens: the timer of the CPU ticks\n  Refused, in this order: BadCpu\n  Reply: `tick C`\n",
        },
    ]
}

/// The rows of 'The agent'.
pub(crate) fn the_agent() -> [Row; 8] {
    [
        Row {
            words: &["drain"],
            text: "line `drain` N\n  What happens: the agent takes in at most N messages\n  Refused, in this order: NotActive (none is active, none attaches)\n  Reply: `drained N`, and what stands below\n",
        },
        Row {
            words: &["stamp"],
            text: "line `stamp` C T\n  What happens: what the agent knows of the thread is stamped into the slot of the CPU\n  Refused, in this order: NotActive, BadCpu, NoThread (the agent does not know it), SlotOpen\n  Reply: `stamped N`, the transaction's number\n",
        },
        Row {
            words: &["stamp", "p"],
            text: "line `stamp` C T `p`\n  What happens: as `stamp` C T, and the thread on the CPU is to make way\n  Refused, in this order: NotActive, BadCpu, NoThread (the agent does not know it), SlotOpen\n  Reply: `stamped N`, the transaction's number\n",
        },
        Row {
            words: &["stamp", "g"],
            text: "line `stamp` C T `g`\n  What happens: what the agent knows of the thread is stamped there as one of a group, of which all are placed, or none is\n  Refused, in this order: NotActive, BadCpu, NoThread (the agent does not know it), SlotOpen\n  Reply: `stamped N`, the transaction's number\n",
        },
        Row {
            words: &["stamp", "pg"],
            text: "line `stamp` C T `pg`\n  What happens: as `stamp` C T `g`, as one of a group, and the thread on the CPU is to make way\n  Refused, in this order: NotActive, BadCpu, NoThread (the agent does not know it), SlotOpen\n  Reply: `stamped N`, the transaction's number\n",
        },
        Row {
            words: &["decide"],
            text: "line `decide`\n  What happens: what the policy plans is stamped, all of it or nothing\n  Refused, in this order: NotActive\n  Reply: `decided K`, and K lines `stamped N cpu C thread T`, each with ` preempt` if the thread there is to make way\n",
        },
        Row {
            words: &["commit"],
            text: "line `commit` M\n  What happens: the stamped slots of the mask land, those of a group first, each in increasing order of CPU. Then they are idle\n  Refused, in this order: NotActive, EmptyMask (a bit past the last CPU)\n  Reply: `cpu C OUTCOME T seq S` for each, S being the thread's number before it\n",
        },
        Row {
            words: &["late"],
            text: "line `late` N\n  What happens: the transaction of this number lands as it was stamped, whether it landed before or not. No slot changes\n  Refused, in this order: NoSuchTransaction\n  Reply: `late N OUTCOME T seq S`\n",
        },
    ]
}

/// The rows of 'How agents come and go'.
pub(crate) fn how_agents_come_and_go() -> [Row; 8] {
    [
        Row {
            words: &["handoff"],
            text: "line `handoff` C\n  What happens: the active agent goes on as one of the next generation, on the CPU. What it stamped before is displaced once it lands\n  Refused, in this order: NotActive, BadCpu, AgentThere, CpuTaken, SeqSpent (of the thread there), GenSpent\n  Reply: `agent C generation G`\n",
        },
        Row {
            words: &["crash"],
            text: "line `crash`\n  What happens: the agent is gone, with all that it had in mind\n  Refused, in this order: NotActive (none is active, none attaches)\n  Reply: `crashed`\n",
        },
        Row {
            words: &["leave"],
            text: "line `leave`\n  What happens: as `crash`, if no slot is stamped\n  Refused, in this order: NotActive (none is active, none attaches), SlotOpen\n  Reply: `left`\n",
        },
        Row {
            words: &["begin"],
            text: "line `begin`\n  What happens: a new agent of the next generation begins to attach, with the policy of the one before. All slots are idle\n  Refused, in this order: StillAttached, GenSpent\n  Reply: `begun generation G`\n",
        },
        Row {
            words: &["begin", "first"],
            text: "line `begin` `first`\n  What happens: as `begin`, with the policy `first`\n  Refused, in this order: StillAttached, GenSpent\n  Reply: `begun generation G`\n",
        },
        Row {
            words: &["begin", "two"],
            text: "line `begin` `two` S\n  What happens: as `begin`, with the policy `two` S\n  Refused, in this order: StillAttached, GenSpent\n  Reply: `begun generation G`\n",
        },
        Row {
            words: &["page"],
            text: "line `page` N\n  What happens: the agent that attaches is told of the next N live threads, in increasing order of tid\n  Refused, in this order: NotAttaching (none attaches, or the last page was given)\n  Reply: `page K next T`, or `page K end` for the last one\n",
        },
        Row {
            words: &["activate"],
            text: "line `activate` C\n  What happens: the agent that attaches is active on the CPU\n  Refused, in this order: NotAttaching (none attaches, or the last page was not given), BadCpu, CpuTaken, SeqSpent (of the thread there)\n  Reply: `agent C generation G`\n",
        },
    ]
}

/// The rows of 'Looks'.
pub(crate) fn looks() -> [Row; 3] {
    [
        Row {
            words: &["view"],
            text: "line `view`\n  What it shows: what the agent knows of each thread, in increasing order of tid\n  Refused: NotActive (none is active, none attaches)\n  Reply, a line for each: `view T seq S R mask M class CLASS name NAME`\n",
        },
        Row {
            words: &["state"],
            text: "line `state`\n  What it shows: the threads that live, in increasing order of tid\n  Reply, a line for each: `state T seq S R mask M class CLASS name NAME cpu C`, C being `-` if it is on none\n",
        },
        Row {
            words: &["unread"],
            text: "line `unread`\n  What it shows: the messages that wait, in order\n  Reply, a line for each: `unread KIND T seq S cpu C`, C being `-` if there is none. KIND is one of `created`, `blocked`, `wakeup`, `preempted`, `yield`, `dead`, `affinity` and `tick`\n",
        },
    ]
}

/// The rows of 'Refusals'.
pub(crate) fn refusals() -> [Row; 19] {
    [
        Row {
            words: &["NoThread", "1"],
            text: "refusal 1 NoThread\n  When: the thread was never created, or is dead; of a stamp: the agent does not know it\n  What to do: create it, or drain first\n",
        },
        Row {
            words: &["NotRunning", "2"],
            text: "refusal 2 NotRunning\n  When: the thread is on no CPU\n  What to do: let it be placed first\n",
        },
        Row {
            words: &["NotBlocked", "3"],
            text: "refusal 3 NotBlocked\n  When: the thread may run already\n  What to do: block it first\n",
        },
        Row {
            words: &["EmptyMask", "4"],
            text: "refusal 4 EmptyMask\n  When: the mask has no CPU of the enclave, or one past the last; of a commit: one past the last\n  What to do: use CPUs below the count in the header\n",
        },
        Row {
            words: &["BadCpu", "5"],
            text: "refusal 5 BadCpu\n  When: there is no such CPU\n  What to do: use one below the count in the header\n",
        },
        Row {
            words: &["AgentThere", "6"],
            text: "refusal 6 AgentThere\n  When: the active agent is on the CPU\n  What to do: use another CPU, or hand the agent off\n",
        },
        Row {
            words: &["CpuTaken", "7"],
            text: "refusal 7 CpuTaken\n  When: the other class holds the CPU\n  What to do: use another CPU, or `give` it back\n",
        },
        Row {
            words: &["NotTaken", "8"],
            text: "refusal 8 NotTaken\n  When: the other class does not hold the CPU\n  What to do: `take` it first\n",
        },
        Row {
            words: &["NotActive", "9"],
            text: "refusal 9 NotActive\n  When: no agent is active; of a drain, a view, a crash and a leaving: and none attaches\n  What to do: `begin`, `page` to the end, `activate`\n",
        },
        Row {
            words: &["StillAttached", "10"],
            text: "refusal 10 StillAttached\n  When: an agent is active or attaches\n  What to do: `crash` or `leave` first\n",
        },
        Row {
            words: &["NotAttaching", "11"],
            text: "refusal 11 NotAttaching\n  When: no agent attaches; of a page: or the last one was given; of an activation: or it was not\n  What to do: `begin` first; `page` until the reply ends in `end`\n",
        },
        Row {
            words: &["SeqSpent", "12"],
            text: "refusal 12 SeqSpent\n  When: the thread's number is 4,294,967,295\n  What to do: none: no more can be told of this thread\n",
        },
        Row {
            words: &["GenSpent", "13"],
            text: "refusal 13 GenSpent\n  When: the generation is 4,294,967,295\n  What to do: none: no more agents can come\n",
        },
        Row {
            words: &["TidsSpent", "14"],
            text: "refusal 14 TidsSpent\n  When: 65,536 threads were created\n  What to do: none: numbers are not given twice\n",
        },
        Row {
            words: &["HistoryFull", "15"],
            text: "refusal 15 HistoryFull\n  When: the journal has no room for the entries, or the list of transactions for what is to be stamped\n  What to do: a larger `history` in the header\n",
        },
        Row {
            words: &["SlotOpen", "16"],
            text: "refusal 16 SlotOpen\n  When: of a stamp: the CPU's slot is not idle; of a leaving: a slot is stamped\n  What to do: `commit` it first\n",
        },
        Row {
            words: &["NoSuchTransaction", "17"],
            text: "refusal 17 NoSuchTransaction\n  When: no transaction has this number\n  What to do: use a number that a `stamped` line showed\n",
        },
        Row {
            words: &["Gone", "18"],
            text: "refusal 18 Gone\n  When: the enclave was torn down\n  What to do: none: a larger ring, or more frequent drains\n",
        },
        Row {
            words: &["OutOfMemory", "19"],
            text: "refusal 19 OutOfMemory\n  When: memory ran out. No script shows it: the program ends with status 5\n  What to do: more memory\n",
        },
    ]
}

/// The rows of 'Outcomes'.
pub(crate) fn outcomes() -> [Row; 15] {
    [
        Row {
            words: &["Placed", "0"],
            text: "outcome 0 Placed\n  When: none of the others applies: the thread is on the CPU now\n",
        },
        Row {
            words: &["Gone", "1"],
            text: "outcome 1 Gone\n  When: the enclave was torn down, before or by this very landing\n",
        },
        Row {
            words: &["Displaced", "2"],
            text: "outcome 2 Displaced\n  When: no agent is active, or the slot's generation is not its generation\n",
        },
        Row {
            words: &["NoThread", "3"],
            text: "outcome 3 NoThread\n  When: the thread never was, or is dead\n",
        },
        Row {
            words: &["Stale", "4"],
            text: "outcome 4 Stale\n  When: the number that was stamped is not the thread's: a message was posted about it since\n",
        },
        Row {
            words: &["NotRunnable", "5"],
            text: "outcome 5 NotRunnable\n  When: the thread is blocked\n",
        },
        Row {
            words: &["AlreadyPlaced", "6"],
            text: "outcome 6 AlreadyPlaced\n  When: the thread is on a CPU, on this one too\n",
        },
        Row {
            words: &["NotAllowed", "7"],
            text: "outcome 7 NotAllowed\n  When: the CPU is not in the thread's mask\n",
        },
        Row {
            words: &["CpuIsAgent", "8"],
            text: "outcome 8 CpuIsAgent\n  When: the active agent is on the CPU\n",
        },
        Row {
            words: &["CpuTaken", "9"],
            text: "outcome 9 CpuTaken\n  When: the other class holds the CPU\n",
        },
        Row {
            words: &["CpuBusy", "10"],
            text: "outcome 10 CpuBusy\n  When: a thread is on the CPU, and the transaction is not one that takes it off (`p`)\n",
        },
        Row {
            words: &["SeqSpent", "11"],
            text: "outcome 11 SeqSpent\n  When: the thread on the CPU is to make way, and its number is 4,294,967,295\n",
        },
        Row {
            words: &["HistoryFull", "12"],
            text: "outcome 12 HistoryFull\n  When: the journal has no room for an entry, or for two if a thread makes way; of a group: for those of all its slots\n",
        },
        Row {
            words: &["Malformed", "13"],
            text: "outcome 13 Malformed\n  When: the bytes are no slot of this CPU. No script shows it, since only agent and kernel write slots\n",
        },
        Row {
            words: &["GroupFailed", "14"],
            text: "outcome 14 GroupFailed\n  When: it would be placed by itself, and another of its group would not be\n",
        },
    ]
}

/// The rows of 'Faults of a script'.
pub(crate) fn faults_of_a_script() -> [Row; 7] {
    [
        Row {
            words: &["TooLong"],
            text: "fault TooLong\n  When: the script has over 1,048,576 bytes; L is 0\n",
        },
        Row {
            words: &["BadByte"],
            text: "fault BadByte\n  When: a byte of the line is not from 32 to 126\n",
        },
        Row {
            words: &["NoHeader"],
            text: "fault NoHeader\n  When: the first line that says anything does not begin with `cpus`; if there is none, L is 0\n",
        },
        Row {
            words: &["BadWord"],
            text: "fault BadWord\n  When: no event has this first word, or another word is to stand there\n",
        },
        Row {
            words: &["BadCount"],
            text: "fault BadCount\n  When: no form of the line has so many words; a part of the header ends too early\n",
        },
        Row {
            words: &["BadNumber"],
            text: "fault BadNumber\n  When: the word is not a number in its range\n",
        },
        Row {
            words: &["BadName"],
            text: "fault BadName\n  When: the word is not a name\n",
        },
    ]
}

/// The rows of 'Exit statuses'.
pub(crate) fn exit_statuses() -> [Row; 6] {
    [
        Row {
            words: &["0"],
            text: "exit status 0\n  When: the script ran, also if events were refused or the enclave was torn down; all lines were answered, or nobody reads the answers any more; the workers' agent settled; help or version was asked for\n",
        },
        Row {
            words: &["2"],
            text: "exit status 2\n  When: the script has a fault, or what was read is no workload\n",
        },
        Row {
            words: &["3"],
            text: "exit status 3\n  When: the arguments are wrong, a picture is to end before it begins, or nothing is said of the word that help is wanted of\n",
        },
        Row {
            words: &["4"],
            text: "exit status 4\n  When: reading or writing failed, or the file cannot be opened\n",
        },
        Row {
            words: &["5"],
            text: "exit status 5\n  When: out of memory, or a thread could not be started. Nothing was written, but answers to lines before\n",
        },
        Row {
            words: &["6"],
            text: "exit status 6\n  When: the workers' agent did not settle, or a receipt is not that of its command. Nothing was written\n",
        },
    ]
}
