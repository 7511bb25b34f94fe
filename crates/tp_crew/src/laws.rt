//! The laws of what boxes do over several managers, for contracts of one's own. These functions do nothing:
//! their contracts are the laws.
ghost use Rattle.tp_crew.specs.Careers.{CareersAddUp};

use tp_server::Server;

/// What each effect of a box's server adds to a measure of its registers adds up over all elements that the
/// box consumed, in whichever of the crew's managers.
pub fn careers_add_up(_server: &Box<dyn Server + Send>)
    ensures { CareersAddUp behaviour registers }
{}
