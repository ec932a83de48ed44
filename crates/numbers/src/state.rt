// A state, and how it is printed: (predictor,index).
use adpcm_ima::AdpcmImaState;
use std::fmt;

pub(crate) fn make(predictor: i16, index: u8) -> AdpcmImaState {
    AdpcmImaState::new().reload(predictor, index)
}

#[derive(Clone, Copy)]
pub(crate) struct Shown(pub(crate) AdpcmImaState);

impl fmt::Display for Shown {
    fn fmt<W: fmt::Write>(&self, f: &mut fmt::Formatter<W>) -> fmt::Result {
        let predictor = self.0.predictor;
        let index = self.0.step_index;
        write!(f, "({predictor},{index})")
    }
}
