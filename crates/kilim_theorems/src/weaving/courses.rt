//! The thread beside the woven machine is a thread of a course, and what is known of it then: laws, and no code that does work.

pub mod answers;

ghost use Rattle.kilim_fiber_laws.specs.courses.Law.{CoursesBegin, CoursesGoOn, KnownOfCourses};

/// A law, and no work: where a task begins with a frame, the thread is that of a course without deeds.
pub fn courses_begin()
    ensures { CoursesBegin }
{}

/// A law, and no work: the thread of a course goes on as the thread of a course, until it is over.
pub fn courses_go_on()
    ensures { CoursesGoOn }
{}

/// A law, and no work: what is known of a thread of a course in kept, verified code.
pub fn known_of_courses()
    ensures { KnownOfCourses }
{}
