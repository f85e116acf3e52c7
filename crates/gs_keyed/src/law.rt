//! What is true of every order of a key.

ghost use Rattle.gs_keyed.specs.Order.{GoesByKeys};

/// States that the order of a key has all that wait and nobody else, each as often as the queue. Keys never fall, and of
/// threads with the same key, who waits first comes first.
pub fn goes_by_keys()
    ensures { GoesByKeys }
{}
