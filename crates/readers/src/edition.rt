// What an edition has: model's specs/Limits.antt.
ghost use Rattle.std.specs.Prelude.{◌≡◌};
ghost use Rattle.model.specs.Limits.{is_edition, has_messages, least_objects, last_kind, last_form};

use model::limits;

pub fn is_edition(edition: u16) -> bool
    ensures { result ≡ is_edition edition }
{
    (1..=2).contains(&edition)
}

// Whether a send that fails is sent once more, as a message.
pub fn has_messages(edition: u16) -> bool
    ensures { result ≡ has_messages edition }
{
    2 <= edition
}

pub fn least_objects(edition: u16) -> u16
    ensures { result ≡ least_objects edition }
{
    if has_messages(edition) { 8 } else { 5 }
}

pub fn last_kind(edition: u16) -> u16
    ensures { result ≡ last_kind edition }
{
    limits::METHOD
}

pub fn last_form(edition: u16) -> u16
    ensures { result ≡ last_form edition }
{
    limits::OTHER
}
