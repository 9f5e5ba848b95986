//! The text under which a name is shown.
ghost use Rattle.std.specs.Prelude.{◌≡◌};
ghost use Rattle.follow_core.specs.Title.{title};

use watch_core::is_input;

/// The text under which a name is shown, in headers and in messages: `standard input` for `-`, and else the name.
pub(crate) fn title(name: &str) -> &str
    ensures { result.now ≡ title name.now }
{
    if is_input(name) {
        return "standard input";
    }
    name
}
