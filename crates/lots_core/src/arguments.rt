//! Parses the command-line arguments: a seed and a count.
ghost use Rattle.std.specs.Prelude.{◌≡◌, ℕ, IfSome, Some, IsSomeAnd};
ghost use Rattle.lots_core.specs.Arguments.{Asked, AsksFor, IsCount, asked_by, number_asked, texts};
ghost use Rattle.lots_core.specs.declared.arguments.Count.{Count as ACount};

/// How many entrants to draw.
#[derive(Clone, Copy)]
pub enum Count {
    /// All of them, which is a shuffle.
    All,
    /// This many.
    Of(usize),
}

impl Count {
    /// Returns how many of the entrants to draw.
    pub fn among(self, entrants: usize) -> usize
        ensures { result ≡ number_asked self entrants }
    {
        match self {
            Count::All => entrants,
            Count::Of(count) => count,
        }
    }
}

/// What the arguments ask for.
#[derive(Drop)]
pub struct Request<'a> {
    pub seed: &'a str,
    pub count: Count,
}

/// Reads the count: `all`, or decimal digits of a number below 2^64.
pub fn count_of(text: &str) -> Option<Count>
    ensures found { IfSome result (IsCount text.now) }
    ensures only { (count : ACount) → IsCount text.now count → result ≡ Some count }
{
    if text == "all" {
        return Some(Count::All);
    }
    if text.starts_with('+') {
        return None;
    }
    text.parse().ok().map(Count::Of)
}

/// Parses the arguments, or returns `None` if they are not a seed and a count.
pub fn read(arguments: &[String]) -> Option<Request<'_>>
    ensures found { IfSome result (λ request. AsksFor (texts arguments.now) (asked_by request)) }
    ensures only { (asked : Asked) → AsksFor (texts arguments.now) asked →
        IsSomeAnd result (λ request. asked_by request ≡ asked) }
{
    let [seed, count] = arguments else {
        return None;
    };
    if seed.is_empty() {
        return None;
    }
    Some(Request {
        seed: seed.as_str(),
        count: count_of(count.as_str())?,
    })
}
