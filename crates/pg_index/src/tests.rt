// What `.ci/statuses` can't see of the built program: an outside whose calls fail in turn, the text
// of each fault, and workers that are watched and held up through a gate. Whatever a run reads,
// writes and says is a case of `.ci/cases`, which costs no proof.

mod ends;
mod faults_of_the_outside;
mod runs;
mod workers;
