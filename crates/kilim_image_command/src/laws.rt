//! Laws, and no work.

ghost use Rattle.kilim_image_command.specs.Laws.{NeverBegunAndReported, NeverGoneOnAndReported, NeverSavedAndReported, WovenIsServed};

use kilim_fiber_laws::woven_served::runs_serve;
use kilim_image::one_image;
use kilim_isolation_laws::accepted_runs::accepted_is_run;
use kilim_link::links_keep;
use kilim_stages::one_program_of;
use kilim_stages::woven_stage::woven_is_not_reported;

/// A law, and no work: of class files that link to an accepted program the woven form can be run, whatever the main class, if it is fit, and
/// the limits are.
pub fn woven_is_served()
    ensures { WovenIsServed }
{
    links_keep();
    accepted_is_run();
    runs_serve();
}

/// A law, and no work: a run that can be begun isn't reported by a stage.
pub fn never_begun_and_reported()
    ensures { NeverBegunAndReported }
{
    one_program_of();
    woven_is_not_reported();
}

/// A law, and no work: a run whose image is never too large isn't reported.
pub fn never_saved_and_reported()
    ensures { NeverSavedAndReported }
{
    one_program_of();
    never_begun_and_reported();
}

/// A law, and no work: an image whose journal leads to a state of its run isn't reported.
pub fn never_gone_on_and_reported()
    ensures { NeverGoneOnAndReported }
{
    one_image();
    one_program_of();
    never_begun_and_reported();
}
