// How a walk of pages stops a command.
ghost use Rattle.std.specs.Prelude.{◌≡◌};
ghost use Rattle.sqlcipher_tool.specs.Walked.{walk_refusal, walk_stop};
ghost use Rattle.pager.specs.Causes.{IsReadRefusal};
ghost use Rattle.btree_walk.specs.Causes.{IsWalkStop};

use crate::opening::Stop;
use crate::status::Refusal;
use btree_walk::WalkError;
use pager::PageError;

/// How a walk stops a command.
pub fn walk_stop(error: &WalkError<PageError>) -> Stop
    requires { IsWalkStop IsReadRefusal error.now }
    ensures { result ≡ walk_stop error.now }
{
    match walk_refusal(error) {
        Ok(refusal) => Stop::Refused(refusal),
        Err(stop) => stop,
    }
}

/// The defect or the refused page that a walk came upon, or what else stopped it.
pub fn walk_refusal(error: &WalkError<PageError>) -> Result<Refusal, Stop>
    requires { IsWalkStop IsReadRefusal error.now }
    ensures { result ≡ walk_refusal error.now }
{
    match error {
        WalkError::Defect(defect) => Ok(Refusal::Defect(*defect)),
        WalkError::Source(PageError::TagRefused { page }) => Ok(Refusal::PageTag { page: *page }),
        WalkError::Source(PageError::DiskFault) => Err(Stop::DiskFault),
        // A walk pins fewer pages than there are frames, but no clause of a source of pages says that a frame is left.
        WalkError::Source(PageError::AllPinned) | WalkError::OutOfMemory => Err(Stop::OutOfMemory),
        // A walk asks for pages of the file alone.
        WalkError::Source(PageError::OutOfRange | PageError::EntropyFault) => unreachable!(),
    }
}
