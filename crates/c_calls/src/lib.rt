// The answers of the other calls for C: the code, 0 or the number of the refusal, and the answer words of a call that was taken. Of one that was
// refused they stay as they were.
#![tactic(auto)]

ghost use Rattle.std.specs.Prelude.{◌≡◌};
ghost use Rattle.netlist.specs.Answers.{surveyed_of};
ghost use Rattle.path_faults.specs.Answers.{model_edge, fault_answer};
ghost use Rattle.path_to_number.specs.PathNumbers.{number_answer};
ghost use Rattle.audit_pieces.specs.Calls.{piece_of};
ghost use Rattle.bench_text.specs.Calls.{bench_of};
ghost use Rattle.load.specs.Answers.{loaded_of};
ghost use Rattle.c_answer_words.specs.Codes.{answer_after, Answered, survey_words, number_word, edge_number_of};
ghost use Rattle.c_calls.specs.Answers.{all_taken, load_words};
ghost use Rattle.c_calls.specs.FaultNumbers.{fault_of_call, path_of_call, path_word, side_word};

use audit_pieces::PieceAnswer;
use bench_text::LineRefusal;
use c_answer_words::inner::{put_survey, put_words};
use load::LoadWritten;
use model::Refusal;
use model_refusals::refusal_number;
use netlist::NetlistSurvey;
use path_faults::{Edge, FaultNo, PathNo, edge_of, fault_of, path_of};

// The survey: I, G, U, T, then a count for each of 512 nets.
pub fn survey_code(surveyed: Result<NetlistSurvey, Refusal>, answer: &mut [u64; 516]) -> u32
    ensures { Answered (surveyed_of surveyed) survey_words result answer.old answer.new }
{
    match surveyed {
        Err(why) => refusal_number(why),
        Ok(survey) => {
            put_survey(survey, answer);
            0
        }
    }
}

// The number of a path.
pub fn number_code(number: Result<PathNo, Refusal>, answer: &mut [u64; 1]) -> u32
    ensures { Answered (number_answer number) number_word result answer.old answer.new }
{
    match number {
        Err(why) => refusal_number(why),
        Ok(found) => put_words([found.0], answer),
    }
}

// The number of a fault.
pub fn fault_code(found: Result<FaultNo, Refusal>, answer: &mut [u64; 1]) -> u32
    ensures { Answered (fault_answer found) number_word result answer.old answer.new }
{
    match found {
        Err(why) => refusal_number(why),
        Ok(fault) => put_words([fault.0], answer),
    }
}

// The fault of a path and an edge, 0 rising, 1 falling.
pub fn fault_of_code(path: PathNo, edge: u32, answer: &mut [u64; 1]) -> u32
    ensures { Answered (fault_of_call path.0 edge) number_word result answer.old answer.new }
{
    if edge == 0 {
        let rising = fault_of(path, Edge::Rising);
        return fault_code(rising, answer);
    }
    if edge == 1 {
        let falling = fault_of(path, Edge::Falling);
        return fault_code(falling, answer);
    }
    refusal_number(Refusal::NoSuchNumber)
}

// The path of a fault, and its edge, 0 rising, 1 falling.
pub fn path_of_code(fault: FaultNo, answer: &mut [u64; 1], edge: &mut [u32; 1]) -> u32
    ensures answered { Answered (path_of_call fault.0) path_word result answer.old answer.new }
    ensures edge_after { edge.new ≡ answer_after (path_of_call fault.0) side_word edge.old }
{
    let number = fault.0;
    if number < 1 {
        return refusal_number(Refusal::NoSuchNumber);
    }
    let path = path_of(fault);
    let side = edge_of(fault);
    edge[0] = edge_number(side);
    put_words([path.0], answer)
}

// The number of an edge.
fn edge_number(side: Edge) -> u32
    ensures { result ≡ edge_number_of (model_edge side) }
{
    match side {
        Edge::Rising => 0,
        Edge::Falling => 1,
    }
}

// A piece: the number of its records, if all were taken.
pub fn piece_code(taken: PieceAnswer, answer: &mut [u64; 1]) -> u32
    ensures { Answered (all_taken (piece_of taken)) number_word result answer.old answer.new }
{
    match taken {
        PieceAnswer::Refused(why) => refusal_number(why),
        PieceAnswer::RecordRefused(_, why) => refusal_number(why),
        PieceAnswer::Taken(records) => put_words([records as u64], answer),
    }
}

// The length of a netlist file made of .bench text.
pub fn bench_code(converted: Result<usize, LineRefusal>, answer: &mut [u64; 1]) -> u32
    ensures { Answered (bench_of converted) number_word result answer.old answer.new }
{
    match converted {
        Err(refusal) => refusal_number(refusal.why),
        Ok(length) => put_words([length as u64], answer),
    }
}

// The state after a load's vector, and the bytes written.
pub fn load_code(written: Result<LoadWritten, Refusal>, answer: &mut [u64; 2]) -> u32
    ensures { Answered (loaded_of written) load_words result answer.old answer.new }
{
    match written {
        Err(why) => refusal_number(why),
        Ok(n) => put_words([n.state as u64, n.length as u64], answer),
    }
}
