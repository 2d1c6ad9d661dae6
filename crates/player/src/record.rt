// What is done with a record, and where the run ends.
use super::output::write;
use super::{Job, Player, Stop};

impl Player {
    // Plays a record, or what is left in place of one, and collects its line.
    fn replay<R: Print + Eprint>(&mut self, rt: &R) -> Result<(), Stop> {
        let record = self.window.next_record();
        let played = journal::play(&mut self.station, record, &mut self.line);
        self.output.put_line(rt, &self.line[..played.length])?;
        if played.good {
            Ok(())
        } else {
            Err(Stop::At(season::Stop::Bad))
        }
    }

    // Counts a record, or what is left in place of one.
    fn count(&mut self) -> Result<(), Stop> {
        let record = self.window.next_record();
        season::step(&mut self.station, record, &mut self.totals)?;
        Ok(())
    }

    // Does the job with the next record, or with what is left in place of one.
    pub(crate) fn work<R: Print + Eprint>(&mut self, rt: &R) -> Result<(), Stop> {
        match self.job {
            Job::Replay => self.replay(rt),
            Job::Report => self.count(),
        }
    }

    // Writes the counts, and what ended them.
    fn report<R: Print + Eprint>(&self, rt: &R, last: Result<(), season::Stop>) {
        let mut text = [0; season::TEXT];
        let length = season::put_report(&self.totals, last, &mut text);
        let _ = write(rt, &text[..length]);
    }

    // Writes what the job still has to write; no counts where something stopped the run, since they would pass for those of the whole
    // journal.
    pub(crate) fn finish<R: Print + Eprint>(&mut self, rt: &R, played: Result<(), Stop>) {
        match (self.job, played) {
            (Job::Replay, _) => {
                let _ = self.output.flush(rt);
            }
            (Job::Report, Ok(())) => self.report(rt, Ok(())),
            (Job::Report, Err(Stop::At(stop))) => self.report(rt, Err(stop)),
            (Job::Report, Err(Stop::Said)) => {}
        }
    }
}
