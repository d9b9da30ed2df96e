// Dialog tokens.
ghost use Rattle.std.specs.Prelude.{◌≡◌, ◌&&◌, eqb};

// Is a request of this dialog token outstanding? A frame of it changes nothing.
pub(crate) fn is_repeated(outstanding: bool, current: u8, dialog: u8) -> bool
    ensures { result ≡ (outstanding && eqb dialog current) }
{
    outstanding && dialog == current
}
