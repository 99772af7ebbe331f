//! What an accepted record has, for whoever reasons about one. The function is empty, and its clause is the law.
ghost use Rattle.union_json.specs.Laws.{AcceptedIsUtf8};

/// The texts of an accepted record are UTF-8, those of one that withdraws too: under the coding `a` by a rule of their own, and
/// under a blank since they are ASCII.
pub fn accepted_is_utf8()
    ensures { AcceptedIsUtf8 }
{}
