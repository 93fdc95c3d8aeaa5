//! The last item of a list.
ghost use Rattle.std.specs.Prelude.{◌≡◌};
ghost use Rattle.std.specs.Option.{option_copied};
ghost use Rattle.list_core.specs.Newest.{newest};

/// The last item.
pub fn newest<T>(items: &[T]) -> Option<&T>
    ensures { option_copied result ≡ newest items.now }
{
    items.last()
}
