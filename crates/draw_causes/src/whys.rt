//! Why a call did nothing.

ghost use Rattle.std.specs.Prelude.{◌≡◌};
ghost use Rattle.draw_causes.specs.Words.{why_words, why_mend};

use cm_model::Why;

/// What would mend that the loop closed before something was done.
pub const CLOSED_MEND: &str = "ask in an earlier cycle, or let the document run more cycles";

/// Why a call did nothing. What it names is "it".
pub fn why_words(why: Why) -> &'static str
    ensures { result.now ≡ why_words why }
{
    match why {
        Why::NotDescribed => "it is not described",
        Why::Loaded => "it is loaded already",
        Why::StockEmpty => "none of its type is left in stock",
        Why::NotLoaded => "it is not loaded",
        Why::Active => "it is active",
        Why::Refused => "it does not take its parameters",
        Why::NotInactive => "it is not inactive",
        Why::NotActive => "it is not active",
        Why::Chained => "another controller commands it",
        Why::TakesNone => "it takes no values",
        Why::WrongCount => "the values do not fit what it claims",
        Why::LoopEnded => "the loop is closed",
        Why::QueueFull => "the queue is full",
    }
}

/// What would mend that a call did nothing. What it names is "it".
pub fn why_mend(why: Why) -> &'static str
    ensures { result.now ≡ why_mend why }
{
    match why {
        Why::NotDescribed => "name a controller that the document describes",
        Why::Loaded => "go on with the one that is loaded, or unload it first",
        Why::StockEmpty => "load fewer of its type, because an unload gives none back",
        Why::NotLoaded => "load it first, or leave this call out",
        Why::Active => "deactivate it first",
        Why::Refused => "change its parameters in the document",
        Why::NotInactive =>
            "deactivate it first if it is active, and leave it as it is if it is unconfigured",
        Why::NotActive => "activate it first",
        Why::Chained => "send to the controller that commands it, or deactivate that one first",
        Why::TakesNone => "send to a controller that takes values",
        Why::WrongCount => "send what its type takes, with one value for each of its claims",
        Why::LoopEnded => CLOSED_MEND,
        Why::QueueFull => "wait until a request is decided, and ask again",
    }
}
