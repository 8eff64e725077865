// What the definitions say of inputs that were worked out by hand. Each is the contract of a function
// that does nothing.
ghost use Rattle.hc_meaning.specs.Examples.{ARowIsReadBack, ATakenIdIsRefused, AnAbsentIdHasNoRow, DeleteIsNoStatement};

/// A row is read back.
pub fn a_row_is_read_back()
    ensures { ARowIsReadBack }
{}

/// An INSERT of an id that is taken is refused with 1555, and rolled back.
pub fn a_taken_id_is_refused()
    ensures { ATakenIdIsRefused }
{}

/// A SELECT of an id that is absent has no row.
pub fn an_absent_id_has_no_row()
    ensures { AnAbsentIdHasNoRow }
{}

/// A word that begins no statement is no input.
pub fn delete_is_no_statement()
    ensures { DeleteIsNoStatement }
{}
