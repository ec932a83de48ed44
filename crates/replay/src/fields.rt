// What is left of a line's bytes, and what is taken from their front.
use adpcm_ima::AdpcmImaState;

#[derive(Drop)]
pub(crate) struct Fields<'a> {
    pub(crate) rest: &'a [u8],
}

impl<'a> Fields<'a> {
    pub(crate) fn take<const N: usize>(&mut self) -> Option<&'a [u8; N]> {
        let (first, rest) = self.rest.split_first_chunk()?;
        self.rest = rest;
        Some(first)
    }

    pub(crate) fn byte(&mut self) -> Option<u8> {
        let [byte] = *self.take::<1>()?;
        Some(byte)
    }

    // The high byte comes first.
    pub(crate) fn sample(&mut self) -> Option<i16> {
        Some(i16::from_be_bytes(*self.take()?))
    }

    // A state is its predictor and its index.
    pub(crate) fn take_state(&mut self) -> Option<AdpcmImaState> {
        let predictor = self.sample()?;
        let index = self.byte()?;
        Some(AdpcmImaState::new().reload(predictor, index))
    }
}
