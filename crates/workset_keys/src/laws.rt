//! What holds of the names that a work key is made of. The function here does nothing when it runs: its contract is the law.
ghost use Rattle.workset_keys.specs.Laws.{LeastIsLeast, LeastNameIsLeast};

/// The least of names is one of them, is not empty, and no other that is not empty comes before it in the order of bytes; or all
/// of them are empty, and then it is empty. So it is with the names of added entries.
pub fn least_name_is_least()
    ensures names { LeastIsLeast }
    ensures entries { LeastNameIsLeast }
{}
