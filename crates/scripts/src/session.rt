//! What is chosen while a script is played.

use crate::any_labelling::AnyLabelling;
use crate::chosen::Chosen;

/// The labelling and the operation at hand; by default nothing is chosen.
#[derive(Clone, Copy, Default)]
pub struct Session {
    pub(crate) labelling: Option<AnyLabelling>,
    pub(crate) operation: Option<Chosen>,
}
