//! How much of its input a program was given.
ghost use Rattle.std.specs.Prelude.{◌≡◌, length};
ghost use Rattle.ckrt_schedule.specs.Taken.{bytes_of};

use ckrt_events::Event;

/// How many bytes of input an event gives.
pub fn taken_by(event: &Event) -> usize
    ensures { result ≡ length (bytes_of event.now) }
{
    match event {
        Event::Input(bytes) => bytes.len(),
        Event::Place(_, _)
        | Event::Run(_, _)
        | Event::Eof
        | Event::Tick(_)
        | Event::RunLong(_, _) => 0,
    }
}
