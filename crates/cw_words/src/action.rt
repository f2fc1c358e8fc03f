// What the first word of a command line asks for.
ghost use Rattle.std.specs.Prelude.{◌≡◌};
ghost use Rattle.cw_words.specs.Parts.{action_named, least_names, most_names};

/// What the command is to do: one variant for each word that ACTION may be.
#[derive(Clone, Copy, Debug, PartialEq, Eq)]
pub enum Action {
    Go,
    Compile,
    Link,
    Exec,
    List,
    Map,
    Migrate,
    Big,
    Hex,
    Lib,
    Depth,
    Trace,
    Code,
}

// The action of a name.
#[tactic(auto, unfolding(crate::specs::Parts::action_named))]
pub(crate) fn action_of(name: &str) -> Option<Action>
    ensures { result ≡ action_named name.now }
{
    match name {
        "go" => Some(Action::Go),
        "compile" => Some(Action::Compile),
        "link" => Some(Action::Link),
        "exec" => Some(Action::Exec),
        "list" => Some(Action::List),
        "map" => Some(Action::Map),
        "migrate" => Some(Action::Migrate),
        "big" => Some(Action::Big),
        "hex" => Some(Action::Hex),
        "lib" => Some(Action::Lib),
        "depth" => Some(Action::Depth),
        "trace" => Some(Action::Trace),
        "code" => Some(Action::Code),
        _ => None,
    }
}

// How many WORDs an action takes at least.
pub(crate) fn least_names_of(action: Action) -> usize
    ensures { result ≡ least_names action }
{
    match action {
        Action::Lib | Action::Trace => 2,
        _ => 1,
    }
}

// How many WORDs an action takes at most.
pub(crate) fn most_names_of(action: Action) -> usize
    ensures { result ≡ most_names action }
{
    match action {
        Action::Go | Action::Link | Action::Map | Action::Depth | Action::Code => 200,
        Action::Lib | Action::Trace => 201,
        _ => 1,
    }
}
