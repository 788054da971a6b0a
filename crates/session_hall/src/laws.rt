// What holds of the machine itself.
ghost use Rattle.session_hall.specs.Run.{RunGoesOn, SharedFileStays};

/// A session that is shared reads one committed state from its share to its release, whatever the others do.
pub fn shared_file_stays_law()
    ensures { SharedFileStays }
{}

/// A run goes on by one step.
pub fn run_more_law()
    ensures { RunGoesOn }
{}
