//! What is asked of a mode: whether it runs free, flashes, or has a pattern.

ghost use Rattle.std.specs.Prelude.{◌≡◌};

use sig_types::Mode;

/// Whether a cabinet in this mode is coordinated.
pub fn is_coord(mode: Mode) -> bool
    ensures { result ≡ is_coord mode }
{
    match mode {
        Mode::Coord(_) => true,
        _ => false,
    }
}

/// Whether a cabinet in this mode seeks a pattern or is coordinated in one.
pub fn has_pattern(mode: Mode) -> bool
    ensures { result ≡ has_pattern mode }
{
    match mode {
        Mode::Seek(_) => true,
        Mode::Coord(_) => true,
        _ => false,
    }
}

/// Whether a cabinet in this mode flashes.
pub fn is_flash(mode: Mode) -> bool
    ensures { result ≡ is_flash mode }
{
    match mode {
        Mode::Flash => true,
        _ => false,
    }
}

/// Whether a cabinet in this mode runs free.
pub fn is_free(mode: Mode) -> bool
    ensures { result ≡ is_free mode }
{
    match mode {
        Mode::Free => true,
        _ => false,
    }
}

/// Whether a cabinet in this mode is coordinated in this pattern.
pub fn is_coord_of(mode: Mode, pattern: u8) -> bool
    ensures { result ≡ same_mode mode (Coord pattern) }
{
    match mode {
        Mode::Coord(other) => other == pattern,
        _ => false,
    }
}

ghost use Rattle.sig_types.specs.declared.frame.Mode.TheVariants.{Coord};
ghost use Rattle.sig_types.specs.Colour.{same_mode};
ghost use Rattle.tick_context.specs.Modes.{is_coord, has_pattern, is_flash, is_free};
