//! The option `--view`: what a trace shows.

ghost use Rattle.std.specs.Prelude.{◌≡◌, [], map, option_map, unwrap_or};
ghost use Rattle.tz_words.specs.Run.{view_named, view_of};

use tz_model::View;

/// The names of views.
pub static VIEWS: [&str; 2] = ["ns", "all"];

/// The view of a name.
fn view_named(name: &str) -> Option<View>
    ensures { result ≡ view_named name.now }
{
    match name {
        "ns" => Some(View::Ns),
        "all" => Some(View::All),
        _ => None,
    }
}

/// The view that the option's values choose.
pub fn view_in(values: Option<&[&str]>) -> Option<View>
    ensures { result ≡ view_of (unwrap_or (option_map (λ s. map (λ v. v.now) s.now) values.entry) []) }
{
    match values {
        None | Some([]) => Some(View::Ns),
        Some([name]) => view_named(name),
        _ => None,
    }
}
