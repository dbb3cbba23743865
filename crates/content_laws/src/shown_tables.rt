//! Laws of tables: a copy shows the log's own table over what it has seen.

ghost use Rattle.std.specs.Prelude.{◌≡◌, ℕ, List};
ghost use Rattle.std.specs.FinMap.{get};
ghost use Rattle.batch_codec.specs.Values.{BatchValue};
ghost use Rattle.cover_ranges.specs.Runs.{covers};
ghost use Rattle.content.specs.Records.{log_records};
ghost use Rattle.content.specs.Table.{table_within};
ghost use Rattle.content.specs.Content.{Content, IsContent, shown_table};
ghost use Rattle.content.specs.Logs.{IsPlainLog};
ghost use Rattle.content.specs.Copies.{IsCopy};

/// The table of the records that a copy holds is the pass over the log's own records at the offsets
/// that the copy has seen, from its start on.
pub fn a_copy_shows_the_logs_table()
    ensures { (c : Content) (log : List BatchValue) → IsContent c → IsPlainLog log → IsCopy c log
        → shown_table c ≡ table_within (covers c.cover) (log_records log) }
{}

/// Two copies of one log that have seen the same offsets show the same table, and so the same value
/// of each key.
pub fn equal_covers_show_equal_tables()
    ensures same_table { (a b : Content) (log : List BatchValue)
        → IsContent a → IsContent b → IsPlainLog log → IsCopy a log → IsCopy b log
        → a.cover ≡ b.cover → shown_table a ≡ shown_table b }
    ensures same_value { (a b : Content) (log : List BatchValue) (key : List ℕ)
        → IsContent a → IsContent b → IsPlainLog log → IsCopy a log → IsCopy b log
        → a.cover ≡ b.cover → get (shown_table a) key ≡ get (shown_table b) key }
{}
