//! Laws over the definitions.
ghost use Rattle.amdl_app.specs.Laws.{ReplyIsUnique, AnswerIsUnique, StoresItsFile};

use net_plan::laws::rising_is_unique;
use network_file::one_reading;
use packet_state::laws::least_is_unique;
use schedule_file::laws::one_telling;
use tree_rules::one_answer;

/// No command has two replies to the same outcomes of its loads, and no words and files have two answers.
pub fn answer_is_unique()
    ensures reply { ReplyIsUnique }
    ensures answer { AnswerIsUnique }
{
    one_reading();
    one_answer();
    rising_is_unique();
    least_is_unique();
    one_telling();
}

/// A reply stores a file under the name of its command alone.
pub fn stores_its_file()
    ensures { StoresItsFile }
{}
