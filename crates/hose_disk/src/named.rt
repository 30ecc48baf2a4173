// Items and their names.
ghost use Rattle.std.specs.Prelude.{◌≡◌, ◌<◌, IfNone, IfSome, None, length};
ghost use Rattle.std.specs.Str.{bytes_eq};
ghost use Rattle.hose_disk.specs.steps.CabinetState.{IsPlaceOf, item_of, without};

use std::marker::Model;

/// An item and its name.
#[derive(Debug, Drop)]
pub struct Named<T> {
    pub name: Vec<u8>,
    pub item: T,
}

impl<T> Model for Named<T> {
    ghost use Rattle.hose_disk.specs.steps.CabinetState.{NamedItem};

    ghost Value = { NamedItem T };

    ghost view = { λ named. record { name = named.name.items; item = named.item } };
}

impl<T> Named<T> {
    fn is_named(&self, name: &[u8]) -> bool
        ensures { result ≡ bytes_eq self.now.name name.now }
    {
        self.name.as_slice() == name
    }
}

/// The place of the first item of a name.
pub fn place_of<T>(items: &[Named<T>], name: &[u8]) -> Option<usize>
    ensures none { IfNone result (item_of name.now items.now ≡ None) }
    ensures none_left { IfNone result (without name.now items.now ≡ items.now) }
    ensures within { IfSome result (λ place. place < length items.now) }
    ensures first { IfSome result (IsPlaceOf name.now items.now) }
{
    for (place, named) in items.iter().enumerate() {
        if named.is_named(name) {
            return Some(place);
        }
    }
    None
}
