//! The links between the variables of an order.

ghost use Rattle.std.specs.Prelude.{◌≡◌, ◌<◌, length};
ghost use Rattle.std.specs.Option.{ForSome};
ghost use Rattle.decision_queue.specs.Neighbours.{joined_pair, with_first, with_last, first_with, last_without};

/// The variables beside one in the order.
#[derive(Clone, Copy, Debug)]
pub struct Neighbours {
    pub before: Option<usize>,
    pub after: Option<usize>,
}

/// Lets one variable stand directly before another, or at the end.
pub fn join_pair(links: &mut [Neighbours], before: usize, after: Option<usize>)
    requires before { before < length links.old }
    requires after { ForSome after (λ a. a < length links.old) }
    ensures { links.new ≡ joined_pair links.old before after }
{
    links[before].after = after;
    if let Some(after) = after {
        links[after].before = Some(before);
    }
}

/// Lets a variable stand before the first one.
pub fn put_first(links: &mut [Neighbours], var: usize, first: usize)
    requires var { var < length links.old }
    requires first { first < length links.old }
    ensures { links.new ≡ with_first links.old var first }
{
    links[first].before = Some(var);
    links[var] = Neighbours {
        before: None,
        after: Some(first),
    };
}

/// Takes a variable out from between its neighbours, and lets it stand before the first one.
pub fn bring_first(
    links: &mut [Neighbours],
    var: usize,
    before: usize,
    after: Option<usize>,
    first: usize,
)
    requires var { var < length links.old }
    requires before { before < length links.old }
    requires after { ForSome after (λ a. a < length links.old) }
    requires first { first < length links.old }
    ensures { links.new ≡ with_first (joined_pair links.old before after) var first }
{
    join_pair(links, before, after);
    put_first(links, var, first);
}

/// Lets a variable stand behind the last one, if there is one.
pub fn put_last(links: &mut [Neighbours], last: Option<usize>, var: usize)
    requires { ForSome last (λ l. l < length links.old) }
    ensures { links.new ≡ with_last links.old last var }
{
    if let Some(last) = last {
        links[last].after = Some(var);
    }
}

/// The first variable when one is put behind the last.
pub fn first_of(first: Option<usize>, var: usize) -> Option<usize>
    ensures { result ≡ first_with first var }
{
    match first {
        None => Some(var),
        Some(first) => Some(first),
    }
}

/// The last variable when the one between two neighbours is taken out.
pub fn last_of(last: Option<usize>, before: usize, after: Option<usize>) -> Option<usize>
    ensures { result ≡ last_without last before after }
{
    match after {
        None => Some(before),
        Some(_) => last,
    }
}
