// The cases, and how one is told.
use super::told::Told;
use anyhow::anyhow;
use line::read_word_from;
use std::io::BufReader;
use tasks::Task;
use words::read_word;

#[derive(Clone, Copy)]
struct Case {
    name: &'static str,
    bytes: &'static [u8],
}

const CASES: [Case; 27] = [
    Case {
        name: "no byte",
        bytes: &[],
    },
    Case {
        name: "kind 0",
        bytes: &[0, 0, 0, 0, 7, 0, 1],
    },
    Case {
        name: "kind 7",
        bytes: &[7, 0, 0, 0, 7, 0, 1],
    },
    Case {
        name: "kind 255",
        bytes: &[255, 0, 0, 0, 7, 0, 1],
    },
    Case {
        name: "Plan of 4 trains",
        bytes: &[2, 0, 4, 0, 1, 0, 1],
    },
    Case {
        name: "Plan with path 2",
        bytes: &[2, 0, 3, 0, 2, 0],
    },
    Case {
        name: "Plan with path 2, then cut",
        bytes: &[2, 0, 3, 2],
    },
    Case {
        name: "End with 2",
        bytes: &[6, 0, 0, 0, 7, 2],
    },
    Case {
        name: "Task, n = 0",
        bytes: &[1, 0, 0, 2, 0, 1, 0, 0, 0, 1],
    },
    Case {
        name: "Task, n = 0, then cut",
        bytes: &[1, 0, 0],
    },
    Case {
        name: "Task, n = 1025",
        bytes: &[1, 4, 1, 2, 0, 1, 0, 0, 0, 1],
    },
    Case {
        name: "Task, n = 1025, then cut",
        bytes: &[1, 4, 1],
    },
    Case {
        name: "Task, k = 0",
        bytes: &[1, 0, 3, 0, 0, 1, 0, 0, 0, 1],
    },
    Case {
        name: "Task, k = 0, then cut",
        bytes: &[1, 0, 3, 0],
    },
    Case {
        name: "Task, k = 65",
        bytes: &[1, 0, 3, 65, 0, 1, 0, 0, 0, 1],
    },
    Case {
        name: "Task, k = 65, then cut",
        bytes: &[1, 0, 3, 65],
    },
    Case {
        name: "Task, m = 0",
        bytes: &[1, 0, 3, 2, 0, 0, 0, 0, 0, 1],
    },
    Case {
        name: "Task, m = 0, then cut",
        bytes: &[1, 0, 3, 2, 0, 0],
    },
    Case {
        name: "Task, m = 4097",
        bytes: &[1, 0, 3, 2, 16, 1, 0, 0, 0, 1],
    },
    Case {
        name: "Task, m = 4097, then cut",
        bytes: &[1, 0, 3, 2, 16, 1],
    },
    Case {
        name: "Task, half of m",
        bytes: &[1, 0, 3, 2, 16],
    },
    Case {
        name: "Task, pair 9-9",
        bytes: &[1, 0, 3, 2, 0, 1, 0, 9, 0, 9],
    },
    Case {
        name: "Task, pair 2-1",
        bytes: &[1, 0, 3, 2, 0, 1, 0, 2, 0, 1],
    },
    Case {
        name: "Task, pair 0-1 twice",
        bytes: &[1, 0, 3, 2, 0, 2, 0, 0, 0, 1, 0, 0, 0, 1],
    },
    Case {
        name: "Task, pair 2-1, then cut",
        bytes: &[1, 0, 3, 2, 0, 2, 0, 2, 0, 1, 0],
    },
    Case {
        name: "Task, pair 9-9, then cut",
        bytes: &[1, 0, 3, 2, 0, 2, 0, 9, 0, 9],
    },
    Case {
        name: "Task, pair 9-9, a byte more",
        bytes: &[1, 0, 3, 2, 0, 1, 0, 9, 0, 9, 0],
    },
];

#[derive(Drop)]
pub struct Table<'a> {
    pub rt: &'a HostRuntime,
    pub task: &'a Task,
}

impl Table<'_> {
    // What a stream of these bytes gives.
    fn streamed(&self, bytes: &[u8]) -> anyhow::Result<Vec<u8>> {
        let mut word = Vec::new(self.rt.alloc());
        let mut reader = BufReader::with_capacity(self.rt.alloc(), 1, bytes)?;
        read_word_from(&mut reader, self.task, &mut word).map_err(|_| anyhow!(
            "the stream can't be read"
        ))?;
        Ok(word)
    }

    fn told(&self, bytes: &[u8]) -> anyhow::Result<String> {
        let told = Told {
            answer: read_word(self.task, bytes),
        };
        Ok(format!(in self.rt.alloc(); "{told}")?)
    }

    // One case: what the bytes are read as, and what a stream of them is.
    fn show(&self, name: &str, bytes: &[u8]) -> anyhow::Result<()> {
        let word = self.streamed(bytes)?;
        let whole = self.told(bytes)?;
        let part = self.told(word.as_slice())?;
        let answer = if whole.as_str() == part.as_str() {
            String::from_str(self.rt.alloc(), "the same")?
        } else {
            part
        };
        println!(self.rt;
            "{name}: {whole}; stream: {answer}, {} of {} bytes",
            word.len(),
            bytes.len()
        )?;
        Ok(())
    }

    // A good word, with a byte more, and cut at each length.
    fn show_good(&self, name: &str, bytes: &[u8]) -> anyhow::Result<()> {
        self.show(name, bytes)?;
        let mut longer = Vec::from_slice(self.rt.alloc(), bytes)?;
        longer.push(0)?;
        let and_more = format!(in self.rt.alloc(); "{name}, a byte more")?;
        self.show(and_more.as_str(), longer.as_slice())?;
        self.show_cuts(name, bytes)
    }

    fn show_cuts(&self, name: &str, bytes: &[u8]) -> anyhow::Result<()> {
        for n in 0..bytes.len() {
            let cut = format!(in self.rt.alloc(); "{name}, cut at {n}")?;
            self.show(cut.as_str(), &bytes[..n])?;
        }
        Ok(())
    }

    // Boxes of round 7 that say so many trains, with so many digests.
    fn boxes(&self, trains: u8, digests: u8) -> anyhow::Result<Vec<u8>> {
        let mut bytes = Vec::from_slice(self.rt.alloc(), &[3, 0, 0, 0, 7, 0, trains])?;
        bytes.resize(7 + 32 * digests as usize, 170)?;
        Ok(bytes)
    }

    // Train 1 has the number 0, and train 2 the number 1.
    fn opened(&self) -> anyhow::Result<Vec<u8>> {
        let mut bytes = Vec::from_slice(self.rt.alloc(), &[5, 0, 0, 0, 7, 0, 1, 0])?;
        bytes.extend_from_slice(&[187; 32])?;
        bytes.extend_from_slice(&[0, 2, 1])?;
        bytes.extend_from_slice(&[204; 32])?;
        Ok(bytes)
    }

    pub fn good_words(&self, task: &[u8]) -> anyhow::Result<()> {
        self.show_good("Task", task)?;
        self.show_good("Plan", &[2, 0, 3, 0, 1, 0])?;
        self.show_good("Boxes", self.boxes(3, 3)?.as_slice())?;
        self.show_good("Ask", &[4, 0, 0, 0, 7, 0, 1])?;
        self.show_good("Opened", self.opened()?.as_slice())?;
        self.show_good("End", &[6, 0, 0, 0, 7, 1])?;
        self.show_good("End with 0", &[6, 0, 0, 0, 7, 0])
    }

    pub fn damaged_words(&self) -> anyhow::Result<()> {
        for case in CASES {
            self.show(case.name, case.bytes)?;
        }
        self.show("Boxes of 4 trains", self.boxes(4, 4)?.as_slice())?;
        self.show("Boxes of 2 trains", self.boxes(2, 2)?.as_slice())?;
        self.show("Boxes, a digest more", self.boxes(3, 4)?.as_slice())
    }
}
