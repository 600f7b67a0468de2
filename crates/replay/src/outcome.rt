// What a list of calls comes to.
use crate::answers::Answer;
use sheet::closed::ClosedSheet;
use sheet::edges::Edges;
use sheet::open::OpenSheet;

// The sheet that a list of calls leaves. Neither stage is an error, so this is no `Result`.
#[derive(Drop)]
pub enum Stage {
    Unclosed(OpenSheet),
    Closed(ClosedSheet),
}

// A trial that still stood where the calls stopped: the edges with the trial's edge, and that edge.
#[derive(Clone, Copy)]
pub struct Standing {
    pub edges: Edges,
    pub first: u8,
    pub second: u8,
}

// Where the calls stopped: whether every call stood in its place, and the trial that still stood.
#[derive(Clone, Copy)]
pub struct Stop {
    pub whole: bool,
    pub standing: Option<Standing>,
}

impl Stop {
    // at the end of the list
    pub(crate) const AT_END: Stop = Stop {
        whole: true,
        standing: None,
    };

    // at a call out of its place
    pub(crate) const OUT_OF_PLACE: Stop = Stop {
        whole: false,
        standing: None,
    };
}

// The sheet is as before a trial that still stood.
#[derive(Drop)]
pub struct Outcome {
    pub stage: Stage,
    pub stop: Stop,
    pub answers: Vec<Answer>,
}
