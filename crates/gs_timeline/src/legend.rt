use crate::text::Text;
use std::alloc::AllocError;

/// How the parts of a picture look in a light scheme. Each text has a contrast of 4.5 at least to what it stands on, and each
/// bar and line of 3.
const LIGHT: &str =
    "svg{background:#fff}text{fill:#0f172a}.page-back{fill:#fff}.z0{color:#1968e6}.z1{color:#0d3677}.z2{color:#1557c1}.z3{color:#11479c}.o0{color:#ae5109}.o1{color:#572805}.o2{color:#914308}.o3{color:#743606}.unknown{color:#475569}.wide{stroke:#0f172a}.name{fill:#fff}.row{fill:#f1f5f9}.active{fill:#334155;stroke:#0f172a}.on-active{fill:#fff}.attaching{fill:#fff;stroke:#334155}.on-attaching{fill:#334155}.end,.step{fill:#334155}.held,.hatch{stroke:#64748b}.blur{fill:#64748b}.tick,.page{stroke:#c2410c}.torn{stroke:#dc2626}.on-torn,.lost{fill:#b91c1c}.lost,.again{stroke:#fff}.grid{stroke:#7c8798}.axis,.small,.again{fill:#475569}.slot,.stamp{stroke:#475569}.stamp{fill:#fff}.failed{stroke:#b91c1c;fill:#fff}.group{stroke:#7e22ce}.lost-group{stroke:#b91c1c}.ring{fill:#0f766e}";

/// And in a dark one.
const DARK: &str =
    "svg{background:#0f172a}text{fill:#e2e8f0}.page-back{fill:#0f172a}.z0{color:#6ea2f7}.z1{color:#bbd4fb}.z2{color:#478af5}.z3{color:#94bbf9}.o0{color:#f59847}.o1{color:#facea8}.o2{color:#f37d16}.o3{color:#f8b377}.unknown{color:#cbd5e1}.wide{stroke:#e2e8f0}.name{fill:#0f172a}.row{fill:#1e293b}.active{fill:#cbd5e1;stroke:#f8fafc}.on-active{fill:#0f172a}.attaching{fill:#0f172a;stroke:#cbd5e1}.on-attaching{fill:#cbd5e1}.end,.step{fill:#cbd5e1}.held,.hatch{stroke:#94a3b8}.blur{fill:#94a3b8}.tick,.page{stroke:#fb923c}.torn{stroke:#f87171}.on-torn,.lost{fill:#fca5a5}.lost,.again{stroke:#0f172a}.grid{stroke:#64748b}.axis,.small,.again{fill:#cbd5e1}.slot,.stamp{stroke:#cbd5e1}.stamp{fill:#0f172a}.failed{stroke:#f87171;fill:#0f172a}.group{stroke:#d8b4fe}.lost-group{stroke:#f87171}.ring{fill:#2dd4bf}";

/// How they look in any scheme.
const SHAPES: &str =
    ".wide,.bar{fill:currentColor}.wide{stroke-width:.6}.name{font:11px monospace;text-anchor:middle}.attaching{stroke-dasharray:4 3}.end{font:9px sans-serif;text-anchor:end}.held{fill:url(#hatch)}.hatch{stroke-width:1.5}.tick,.page{stroke-width:2}.torn{stroke-width:3}.on-torn,.axis,.lost,.step{font-size:10px}.axis{text-anchor:middle}.grid{stroke-dasharray:1 5}.small{font-size:11px}.ready,.ran{stroke:currentColor}.ready{stroke-width:2}.ran{stroke-width:9}.again{font:bold 9px sans-serif}.slot{stroke-width:1.5;fill:none}.stamp,.failed{stroke-width:1.8}.failed{fill-opacity:0}.group{stroke-width:2;fill:none}.label,.count{font-weight:bold}.thread{font-size:11px}.lost,.again{paint-order:stroke;stroke-width:3px}";

/// The pattern of what is held by the other class.
const HATCH: &str =
    "<defs><pattern id=\"hatch\" width=\"8\" height=\"8\" patternUnits=\"userSpaceOnUse\"><path class=\"hatch\" d=\"M-2 2L2 -2M0 8L8 0M6 10L10 6\"/></pattern></defs>\n";

/// Samples of the marks, each with what it means.
const SAMPLES: &str =
    "<g class=\"small\"><rect x=\"10\" y=\"32\" width=\"24\" height=\"26\" rx=\"3\" class=\"wide z0\"/><text x=\"38\" y=\"50\" class=\"small\">class 0</text><rect x=\"86\" y=\"40\" width=\"24\" height=\"18\" rx=\"3\" class=\"wide o0\"/><text x=\"114\" y=\"50\" class=\"small\">class 1</text><rect x=\"162\" y=\"32\" width=\"24\" height=\"26\" class=\"active\"/><text x=\"190\" y=\"50\" class=\"small\">agent</text><rect x=\"230\" y=\"32\" width=\"24\" height=\"26\" class=\"attaching\"/><text x=\"258\" y=\"50\" class=\"small\">attaching</text><path d=\"M320 42v8\" class=\"page\"/><text x=\"326\" y=\"50\" class=\"small\">page</text><rect x=\"362\" y=\"32\" width=\"24\" height=\"26\" class=\"held\"/><text x=\"390\" y=\"50\" class=\"small\">other class</text><path d=\"M462 43v6\" class=\"tick\"/><text x=\"468\" y=\"50\" class=\"small\">tick</text><path d=\"M502 45h26\" class=\"slot\"/><path d=\"M502 45m-4 0a4 4 0 1 0 8 0a4 4 0 1 0-8 0\" class=\"stamp\"/><text x=\"534\" y=\"50\" class=\"small\">stamped, up to its landing</text><path d=\"M690 36v18M690 36h4M690 54h4\" class=\"group\"/><text x=\"699\" y=\"50\" class=\"small\">a group lands</text><path d=\"M786 32v26\" class=\"torn\"/><text x=\"793\" y=\"50\" class=\"small\">torn down</text></g>\n";

/// What the letters below the ends of bars mean.
const LETTERS: &str =
    "<text x=\"10\" y=\"74\" class=\"small\">Letters tell why a thread left: P preempted, B blocked, Y yielded, D died, A affinity, T torn down. Point at a bar or a mark to read more.</text>\n";

/// Adds how the parts of a picture look. A scheme that is dark has a style sheet of its own.
pub(crate) fn write_style(out: &mut Text) -> Result<(), AllocError> {
    out.push_str("<style>")?;
    out.push_str(LIGHT)?;
    out.push_str(SHAPES)?;
    out.push_str("</style>\n<style media=\"(prefers-color-scheme:dark)\">")?;
    out.push_str(DARK)?;
    out.push_str("</style>\n")?;
    out.push_str(HATCH)
}

/// Adds what the marks of a picture mean.
pub(crate) fn write_legend(out: &mut Text) -> Result<(), AllocError> {
    out.push_str(SAMPLES)?;
    out.push_str(LETTERS)
}
