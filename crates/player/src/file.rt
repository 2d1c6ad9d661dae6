// The records of a file, one after the other. What runs, the source and its name stand one by one: a method takes of them what it prints on,
// reads or names.
use super::{Player, Stop};
use std::io::Read;

// Names the record that ended the run.
fn say<R: Eprint>(rt: &R, name: &str, record: u64, stop: season::Stop) {
    let _ = match stop {
        season::Stop::Over => {
            eprintln!(rt; "{name}: record {record} would bring a count to 2^64")
        }
        season::Stop::Bad => { eprintln!(rt; "{name}: record {record} is bad") }
    };
}

impl Player {
    // Whether a record is left: it is all there, or the file ends in it. Where more of the file has to be waited for, the output is
    // written before, so that a line is there as soon as its record is.
    fn has_record<R: Print + Eprint, S: Read>(
        &mut self,
        rt: &R,
        source: &mut S,
        name: &str,
    ) -> Result<bool, Stop> {
        if self.window.is_short() {
            self.output.flush(rt)?;
        }
        self.window.fill(rt, source, name)?;
        Ok(!self.window.is_empty())
    }

    // Ends the run at a record: the job is finished there, and after that the record is named.
    fn stop_at<R: Print + Eprint>(
        &mut self,
        rt: &R,
        name: &str,
        record: u64,
        stop: season::Stop,
    ) -> Stop {
        self.finish(rt, Err(Stop::At(stop)));
        say(rt, name, record, stop);
        Stop::Said
    }

    // Plays a file to its end, or to the record that ends the run. A proved loop has to end: this one counts up to a number of records
    // that no file has.
    pub(crate) fn play_file<R: Print + Eprint, S: Read>(
        &mut self,
        rt: &R,
        source: &mut S,
        name: &str,
    ) -> Result<(), Stop> {
        self.window.begin();
        for record in 1..=u64::MAX {
            if !self.has_record(rt, source, name)? {
                break;
            }
            match self.work(rt) {
                Ok(()) => {}
                Err(Stop::At(stop)) => return Err(self.stop_at(rt, name, record, stop)),
                Err(Stop::Said) => return Err(Stop::Said),
            }
        }
        Ok(())
    }
}
