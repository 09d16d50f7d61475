ghost use Rattle.std.specs.Prelude.{◌≡◌, drop};

/// What a list has from an index on; nothing where it isn't as long.
pub(crate) fn from<T>(items: &[T], index: usize) -> &[T]
    ensures { result.now ≡ drop index items.now }
{
    if index < items.len() {
        &items[index..]
    } else {
        &[]
    }
}
