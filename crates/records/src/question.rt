// What a question record asks.
ghost use Rattle.std.specs.Prelude.{◌≡◌};
ghost use Rattle.records.specs.Questions.{code, Named, Asking, Asks};

use crate::fault::Cause;

// The models that a question may name, plain or under the view layer.
#[derive(Clone, Copy, PartialEq, Eq, Debug)]
pub enum Model {
    Sc = 0,
    Ptx = 2,
    PtxProxies = 3,
    ViewedSc = 16,
    ViewedPtx = 18,
    ViewedPtxProxies = 19,
}

impl From<Model> for u8 {
    ghost from_gives = { λ model number. number ≡ code model };

    fn from(model: Model) -> u8 {
        model as u8
    }
}

// The model that has this code. A match, since a table that is searched could lack a model without anyone seeing it.
impl TryFrom<u8> for Model {
    type Error = Cause;

    ghost try_from_gives = { Named };

    fn try_from(number: u8) -> Result<Model, Cause> {
        match number {
            0 => Ok(Model::Sc),
            2 => Ok(Model::Ptx),
            3 => Ok(Model::PtxProxies),
            16 => Ok(Model::ViewedSc),
            18 => Ok(Model::ViewedPtx),
            19 => Ok(Model::ViewedPtxProxies),
            _ => Err(Cause::BadQuestion),
        }
    }
}

// Whether some completion is consistent, or what is wrong with one completion. Two questions with names: an `Option` of a
// completion would hide which is asked.
#[derive(Clone, Copy, PartialEq, Eq, Debug)]
pub enum Ask {
    Settle,
    Judge(u16),
}

#[derive(Clone, Copy, PartialEq, Eq, Debug)]
pub struct Question {
    pub model: Model,
    pub ask: Ask,
}

// What the question byte and the completion ask.
fn ask_of(question: u8, completion: u16) -> Result<Ask, Cause>
    ensures { Asking question completion result }
{
    match (question, completion) {
        (0, 0) => Ok(Ask::Settle),
        (1, _) => Ok(Ask::Judge(completion)),
        _ => Err(Cause::BadQuestion),
    }
}

// The question that these bytes are the body of.
impl TryFrom<&[u8]> for Question {
    type Error = Cause;

    ghost try_from_gives = { λ body question. Asks body.now question };

    fn try_from(body: &[u8]) -> Result<Question, Cause> {
        let [model, question, low, high] = body else {
            return Err(Cause::BadQuestion);
        };
        Ok(Question {
            model: Model::try_from(*model)?,
            ask: ask_of(*question, u16::from_le_bytes([*low, *high]))?,
        })
    }
}
