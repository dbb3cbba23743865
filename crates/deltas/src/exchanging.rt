//! Laws of an exchange between copies of one log: the answer to a question fits later, too.

ghost use Rattle.std.specs.Prelude.{◌≡◌, List};
ghost use Rattle.batch_codec.specs.Values.{BatchValue};
ghost use Rattle.cover_ranges.specs.Runs.{Runs, IsCanonical};
ghost use Rattle.content.specs.Content.{Content, IsContent};
ghost use Rattle.content.specs.Joins.{join, Agree};
ghost use Rattle.content.specs.Logs.{IsPlainLog};
ghost use Rattle.deltas.specs.Deltas.{delta_of};
ghost use Rattle.deltas.specs.Patches.{patch};
ghost use Rattle.deltas.specs.Accepting.{IsFor, Accepts};
ghost use Rattle.deltas.specs.Exchanges.{IsContentOf, Event, after_all, MayAllHappen};

/// A copy y of a log asks, and a copy x of it answers. Whatever has happened to y meanwhile, it takes the
/// answer, ends as if it had been merged with x, and is a copy of the log. Where the log has grown, both
/// are copies of the longer one.
pub fn an_answer_fits_later()
    ensures accepted { (log : List BatchValue) (x y : Content) (asked : Runs) (events : List Event)
        → IsPlainLog log → IsContentOf log x → IsContentOf log y → IsCanonical asked → IsFor y asked
        → MayAllHappen log y events → Accepts (after_all y events) (delta_of x asked) }
    ensures merge { (log : List BatchValue) (x y : Content) (asked : Runs) (events : List Event)
        → IsPlainLog log → IsContentOf log x → IsContentOf log y → IsCanonical asked → IsFor y asked
        → MayAllHappen log y events
        → patch (after_all y events) (delta_of x asked) ≡ join (after_all y events) x }
    ensures copy { (log : List BatchValue) (x y : Content) (asked : Runs) (events : List Event)
        → IsPlainLog log → IsContentOf log x → IsContentOf log y → IsCanonical asked → IsFor y asked
        → MayAllHappen log y events → IsContentOf log (patch (after_all y events) (delta_of x asked)) }
{}

/// Two answers may come in either order, if y knows what was asked of both and the three agree.
pub fn answers_come_in_either_order()
    ensures { (a b y : Content) (first second : Runs) → IsContent a → IsContent b → IsContent y
        → Agree y a → Agree y b → Agree a b → IsCanonical first → IsCanonical second
        → IsFor y first → IsFor y second
        → patch (patch y (delta_of a first)) (delta_of b second)
        ≡ patch (patch y (delta_of b second)) (delta_of a first) }
{}
