use super::{Job, Queues};
use rope_algebra::Pieces;
use voice_units::{JobId, Lane, NoMemory, Piece, RopeId};

// The number of a job, or 0 where there is none.
fn number_of(job: Option<&Job>) -> u64 {
    let Some(job) = job else {
        return 0;
    };
    let id = job.id;
    id.0
}

#[test]
fn nine_jobs(rt: HostRuntime) -> Result<(), NoMemory> {
    let alloc = rt.alloc();
    let mut queues = Queues::new(alloc, 4)?;
    let mut refused = 0;
    for id in 1..10 {
        let piece = Piece {
            file: RopeId(1),
            from: 0,
            len: 20,
        };
        let job = Job {
            id: JobId(id),
            passage: Pieces::one(alloc, piece)?,
            heard: 0,
            window: 0,
            stopped: false,
        };
        if queues.push(Lane(0), job).is_err() {
            refused = id;
        }
    }
    assert_eq!(rt; refused, 9);
    assert_eq!(rt; queues.count(Lane(0)), 8);
    assert_eq!(rt; queues.count(Lane(3)), 0);
    assert_eq!(rt; queues.stop(Lane(0)), 8);
    assert_eq!(rt; queues.stop(Lane(0)), 0);
    assert_eq!(rt; number_of(queues.head(Lane(0))), 1);
    assert_eq!(rt; number_of(queues.job(Lane(0), 7)), 8);
    assert_eq!(rt; number_of(queues.job(Lane(0), 8)), 0);
    let first = queues.pop(Lane(0));
    assert_eq!(rt; number_of(first.as_ref()), 1);
    assert_eq!(rt; queues.count(Lane(0)), 7);
    assert!(rt; queues.pop(Lane(1)).is_none());
    Ok(())
}
