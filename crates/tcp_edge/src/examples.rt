//! Lines of arguments for which the clauses of the program's calls say something: each subcommand that has options or topics is
//! found in one, and so is `replay`, and a directory is. The function does nothing.

ghost use Rattle.std.specs.Prelude.{◌≡◌, [], List, codes};
ghost use Rattle.clap.specs.Words.{Row};
ghost use Rattle.tcp_edge.specs.Addresses.{IsUnfit};
ghost use Rattle.tcp_edge.specs.CommandLine.{Finds, HasTopics, directory_word, topic_words};
ghost use Rattle.tcp_edge.specs.Examples.{check_line, replay_line, serve_line, session_line, start_line};

/// Lines in which clap finds `session` and `serve`, with words that are topics where topics stand, one in which it finds `start`
/// with nothing that keeps a broker from starting, one in which it finds `check` and a directory's name, and one in which it finds
/// `replay`.
pub fn lines_that_are_asked_for()
    ensures session { (rows : List Row) × Finds session_line (codes "session") rows
        × HasTopics (topic_words rows) }
    ensures serve { (rows : List Row) × Finds serve_line (codes "serve") rows
        × HasTopics (topic_words rows) }
    ensures start { (rows : List Row) × Finds start_line (codes "start") rows × ¬ IsUnfit rows }
    ensures check { (rows : List Row) × Finds check_line (codes "check") rows
        × (directory_word rows ≡ codes "data") }
    ensures replay { Finds replay_line (codes "replay") [] }
{}
