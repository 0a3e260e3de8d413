// The nouns that name a locale.
ghost use Rattle.std.specs.Prelude.{◌≡◌, ◌&&◌, cond, Some, None, option_map};
ghost use Rattle.std.specs.Char.{is_ascii_alphanumeric};
ghost use Rattle.std.specs.List.{list_all};
ghost use Rattle.j_names.specs.Locales.{is_text, is_locale, bytes_in, locale_text, locale_boxed, locale_given};

use j_noun::{Noun, View};

// Whether bytes are letters and digits, at least one.
fn is_locale(name: &[u8]) -> bool
    ensures { result ≡ is_locale name.now }
{
    !name.is_empty() && are_alphanumeric(name)
}

fn are_alphanumeric(name: &[u8]) -> bool
    ensures { result ≡ list_all is_ascii_alphanumeric name.now }
{
    name.iter().all(|b| b.is_ascii_alphanumeric())
}

/// The bytes of a character atom or list.
pub fn characters(y: &Noun) -> Option<&[u8]>
    ensures { option_map (λ b. b.now) result ≡ cond (is_text y.now.kind y.now.shape) (Some (bytes_in y.now.atoms)) None }
{
    if y.axes().len() > 1 {
        return None;
    }
    match y.view() {
        View::Bytes(bytes) => Some(bytes),
        View::Bits(_) | View::Wholes(_) | View::Boxes(_) => None,
    }
}

/// The locale that a character atom or list names: letters and digits, at least one.
pub fn locale_text(y: &Noun) -> Option<&[u8]>
    ensures { option_map (λ b. b.now) result ≡ locale_text y.now }
{
    let name = characters(y)?;
    if is_locale(name) { Some(name) } else { None }
}

/// The locale whose name is in a box. A list of one box is none.
pub fn locale_boxed(y: &Noun) -> Option<&[u8]>
    ensures { option_map (λ b. b.now) result ≡ locale_boxed y.now }
{
    if !y.axes().is_empty() {
        return None;
    }
    match y.view() {
        View::Boxes(held) if held.len() == 1 => locale_text(&held[0]),
        View::Boxes(_) | View::Bits(_) | View::Wholes(_) | View::Bytes(_) => None,
    }
}

/// The locale of a text, or of a box of one.
pub fn locale_given(y: &Noun) -> Option<&[u8]>
    ensures { option_map (λ b. b.now) result ≡ locale_given y.now }
{
    match locale_text(y) {
        Some(name) => Some(name),
        None => locale_boxed(y),
    }
}
