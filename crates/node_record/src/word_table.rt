//! What words tell, by tables of them.

ghost use Rattle.std.specs.Prelude.{◌≡◌};
ghost use Rattle.node_record.specs.inside.WordTables.{told_by};

/// What a word tells, by a table of words.
pub(crate) fn told_by<T: Copy>(table: &[(&str, T)], word: &str) -> Option<T>
    ensures { result ≡ told_by word.now table.now }
{
    for row in table {
        let (known, told) = *row;
        if word == known {
            return Some(told);
        }
    }
    None
}
