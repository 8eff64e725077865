// What holds of texts as commands. Each law is the contract of a function that does nothing.
ghost use Rattle.hc_reading.specs.Laws.{EachTextIsOneCommand};

use hc_grammar::laws::a_text_is_one_thing;

/// Whatever the text is, it is one command and no other.
pub fn each_text_is_one_command()
    ensures { EachTextIsOneCommand }
{
    a_text_is_one_thing()
}
