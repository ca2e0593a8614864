// The stream of the Rust's runs (oracle/README.md, "Streams") through both: what it says of answers and sides is `replay`'s to compare, and passed over here.
use super::both;
use super::both::Both;
use super::play::Call;
use run_stream::head::{Head, Kind};
use run_stream::input::Broken;
use run_stream::{head, input};
use std::io::Read;
use std::ops::ControlFlow;

// How a stream ends.
#[derive(Clone, Copy, Debug, PartialEq, Eq)]
enum End {
    Said,
    Broken,
}

// What is carried from record to record, and room for what a call hands in.
#[derive(Drop)]
struct Run {
    both: Both,
    line: [u8; head::LINE],
    bytes: [u8; 67584],
    samples: [f64; head::INPUT],
}

impl Run {
    // A side of the stream is passed over.
    fn pass(&mut self, reader: &mut impl Read, count: usize) -> Result<(), Broken> {
        input::fill(reader, &mut self.bytes, 8 * count.min(head::SIDE))?;
        Ok(())
    }

    fn play(&mut self, rt: &impl Print, record: Head) {
        let mut left = [0.0; head::SIDE];
        let mut right = [0.0; head::SIDE];
        let call = Call {
            line: &self.line[..record.line.min(head::LINE)],
            edge: record.number,
            input: &self.samples[..record.input.min(head::INPUT)],
            wanted: None,
        };
        self.both.frame(
            rt,
            call,
            &mut left[..record.left.min(head::SIDE)],
            &mut right[..record.right.min(head::SIDE)],
        );
    }

    // A call with what it hands in, which stands behind its head. What an accepted call has behind it, both sides, is passed over.
    fn call(
        &mut self,
        rt: &impl Print,
        reader: &mut impl Read,
        record: Head,
    ) -> Result<(), Broken> {
        if !record.fits() {
            return Err(Broken);
        }
        input::load(
            reader,
            record,
            &mut self.line,
            &mut self.bytes,
            &mut self.samples,
        )?;
        self.play(rt, record);
        if record.answer == 0 {
            self.pass(reader, record.left)?;
            self.pass(reader, record.right)?;
        }
        Ok(())
    }

    fn step(&mut self, rt: &impl Print, reader: &mut impl Read) -> ControlFlow<End> {
        let Ok(record) = input::next_head(reader, &mut self.bytes) else {
            return ControlFlow::Break(End::Broken);
        };
        match record.kind {
            Ok(Kind::End) => ControlFlow::Break(End::Said),
            Ok(Kind::Run) => {
                self.both.start(record.number);
                ControlFlow::Continue(())
            }
            Ok(Kind::Call) => match self.call(rt, reader, record) {
                Ok(()) => ControlFlow::Continue(()),
                Err(Broken) => ControlFlow::Break(End::Broken),
            },
            Err(_) => ControlFlow::Break(End::Broken),
        }
    }

    // Every record.
    fn play_all(&mut self, rt: &impl Print, reader: &mut impl Read) -> End {
        // A proved loop has to end: no input uses up these turns.
        for _ in 0..u64::MAX {
            if let ControlFlow::Break(end) = self.step(rt, reader) {
                return end;
            }
        }
        End::Broken
    }
}

// The whole stream.
pub fn all(rt: &(impl Print + Eprint), reader: &mut impl Read) {
    let mut run = Run {
        both: both::none(),
        line: [0u8; head::LINE],
        bytes: [0u8; 67584],
        samples: [0.0; head::INPUT],
    };
    match run.play_all(rt, reader) {
        End::Said => run.both.conclude(rt),
        End::Broken => {
            let _ = eprintln!(rt; "lefasumu: the stream breaks off");
        }
    }
}
