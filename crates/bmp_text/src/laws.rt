//! The main laws of the definitions, each the contract of a function without a body.
ghost use Rattle.bmp_text.specs.Numerals.{HasOneForm};
ghost use Rattle.bmp_text.specs.Cursor.{LinesStandInText};

/// A number of 64 bits has exactly one canonical form: that form is read as the number, and no other word is.
pub fn one_form()
    ensures { HasOneForm }
{}

/// The bytes of a line's span are the line.
pub fn lines_stand_in_text()
    ensures { LinesStandInText }
{}
