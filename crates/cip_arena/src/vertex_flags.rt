// Which vertices may have a node: where a vertex has none, no way up has to be searched for it.
ghost use Rattle.std.specs.Prelude.{◌≡◌, ◌≤◌, true, vec_capacity};
ghost use Rattle.cip_arena.specs.Walk.{with_flag};

/// Sets the flag of a vertex, where the column reaches so far.
pub fn flag_vertex(flags: &mut Vec<bool>, vertex: u32)
    ensures flagged { flags.new.items ≡ with_flag vertex flags.old.items }
    ensures room { vec_capacity flags.new ≡ vec_capacity flags.old }
{
    if (vertex as usize) < flags.len() {
        flags[vertex as usize] = true;
    }
}

/// Makes a column of flags that are not set, for n vertices, or for as many as there is room.
pub fn clear_flags(flags: &mut Vec<bool>, vertices: usize, room: u32)
    requires { room ≤ vec_capacity flags.old }
    ensures { vec_capacity flags.old ≤ vec_capacity flags.new }
{
    let count = vertices.min(room as usize);
    if flags.len() == count {
        flags.fill(false);
    } else {
        flags.clear();
        let _ = flags.resize(count, false);
    }
}
