// What follows from the definitions alone. Each law is the contract of a function that does nothing.
ghost use Rattle.hc_meaning.specs.Laws.{EachInputHasARightOutput, EveryStateIsInOrder, HasOneReading, HasOneRightOutput, RightRunIsSerial, RunKeepsIdsInOrder, SerialRunIsRight};

/// Whatever bytes are read, they are the script of one list of statements at most.
pub fn a_script_has_one_reading()
    ensures { HasOneReading }
{}

/// A statement keeps the ids of a database in ascending order, so each is there once.
pub fn a_run_keeps_ids_in_order()
    ensures { RunKeepsIdsInOrder }
{}

/// The ids ascend after any number of a history's transactions.
pub fn every_state_is_in_order()
    ensures { EveryStateIsInOrder }
{}

/// Whatever the setup script's statements are, their run one after another is right.
pub fn a_serial_run_is_right()
    ensures { SerialRunIsRight }
{}

/// A right run of the setup script alone is the run of its statements one after another.
pub fn a_right_run_is_the_serial_one()
    ensures { RightRunIsSerial }
{}

/// Each input has a right output.
pub fn each_input_has_a_right_output()
    ensures { EachInputHasARightOutput }
{}

/// While the setup script is the only one, an input has one right output at most.
pub fn an_input_has_one_right_output()
    ensures { HasOneRightOutput }
{}
