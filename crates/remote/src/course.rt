// The payload that the bytes of a packet stand for: `}` and a byte for a byte that is coded, `*` and a byte for a run.
ghost use Rattle.std.specs.Prelude.{◌≡◌, ◌≤◌, length, take, replicate};
ghost use Rattle.remote.specs.Payload.{added_of, plain_of, run_of, step_of, read_of};
ghost use Rattle.remote.specs.Course.{laid_in, reading_of, Reads};

// How many bytes of payload are laid, and how the next byte is read.
#[derive(Clone, Copy)]
pub enum Course {
    Plain(usize),
    // Behind a `}`.
    Escape(usize),
    // Behind a `*`.
    Run(usize),
    // No payload, or one that the room does not hold.
    Broken,
}

pub fn decode(body: &[u8], payload: &mut [u8]) -> Course
    ensures { Reads (read_of (length payload.old) body.now) result payload.new }
{
    let mut course = Course::Plain(0);
    for &b in body {
        course = turn(course, b, payload);
    }
    course
}

fn turn(course: Course, b: u8, payload: &mut [u8]) -> Course
    requires { laid_in course ≤ length payload.old }
    ensures { Reads (step_of (length payload.old) (reading_of course payload.old) b) result payload.new }
{
    match course {
        Course::Plain(n) => plain(n, b, payload),
        Course::Escape(n) => lay(n, b ^ 0x20, 1, payload),
        Course::Run(n) => run(n, b, payload),
        Course::Broken => Course::Broken,
    }
}

#[tactic(auto, unfolding(crate::specs::Payload::plain_of))]
fn plain(n: usize, b: u8, payload: &mut [u8]) -> Course
    requires { n ≤ length payload.old }
    ensures { Reads (plain_of (length payload.old) (take n payload.old) b) result payload.new }
{
    match b {
        b'}' => Course::Escape(n),
        b'*' => Course::Run(n),
        _ => lay(n, b, 1, payload),
    }
}

// The byte before, some further times: as many as the byte behind the `*` is above 29, from a space to `~`.
fn run(n: usize, b: u8, payload: &mut [u8]) -> Course
    requires { n ≤ length payload.old }
    ensures { Reads (run_of (length payload.old) (take n payload.old) b) result payload.new }
{
    if n == 0 {
        return Course::Broken;
    }
    match b {
        b' '..=b'~' => {
            let last = payload[n - 1];
            lay(n, last, usize::from(b) - 29, payload)
        }
        _ => Course::Broken,
    }
}

// A byte laid some times behind the first `n`.
fn lay(n: usize, b: u8, times: usize, payload: &mut [u8]) -> Course
    requires { n ≤ length payload.old }
    ensures { Reads (added_of (length payload.old) (take n payload.old) (replicate times b)) result payload.new }
{
    if payload.len() - n < times {
        return Course::Broken;
    }
    let to = n + times;
    payload[n..to].fill(b);
    Course::Plain(to)
}
