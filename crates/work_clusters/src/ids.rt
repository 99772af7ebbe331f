//! Ids in ascending order, each once.
ghost use Rattle.std.specs.Prelude.{◌≡◌, ◌+◌, ◌<◌, ◌≤◌, not, filter, vec_len, vec_capacity, true};
ghost use Rattle.std.specs.Ordering.{eq_by_cmp};
ghost use Rattle.union_base.specs.SortedLists.{is_ascending, put};
ghost use Rattle.union_base.specs.RecordIds.{id_cmp};

use union_base::record_id::RecordId;

/// Puts the id at its place, unless it stands there already. There is room, so it takes no memory.
pub fn enter(ids: &mut Vec<RecordId>, id: RecordId)
    requires ascending { is_ascending id_cmp ids.old.items ≡ true }
    requires room { vec_len ids.old < vec_capacity ids.old }
    ensures entered { ids.new.items ≡ put id_cmp id ids.old.items }
    ensures longer { vec_len ids.new ≤ vec_len ids.old + 1 }
    ensures capacity { vec_capacity ids.old ≤ vec_capacity ids.new }
{
    if let Err(at) = ids.binary_search(&id) {
        let _placed = ids.insert(at, id);
    }
}

/// Takes the id away, where it stands there. Takes no memory.
pub fn leave(ids: &mut Vec<RecordId>, id: &RecordId)
    requires { is_ascending id_cmp ids.old.items ≡ true }
    ensures left { ids.new.items ≡ filter (λ other. not (eq_by_cmp id_cmp id.now other))
        ids.old.items }
    ensures shorter { vec_len ids.new ≤ vec_len ids.old }
    ensures capacity { vec_capacity ids.old ≤ vec_capacity ids.new }
{
    if let Ok(at) = ids.binary_search(id) {
        let _gone = ids.remove(at);
    }
}
