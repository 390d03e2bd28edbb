// What is told of the days of a week.
use crate::board::{Board, PORT, RATE};
use crate::text::{Bytes, Held, Said, Words};
use anyhow::bail;
use frame::MAX_FRAME;
use host::write_get;
use layer::Setting;
use reply::{Message, Reading, read};
use std::alloc::Global;
use std::io::Write;

// Static before a frame begins one falsely: as long as no frame may be.
const STATIC_BEFORE: [u8; 3] = [0x17, 0xb5, 0x62];

const STATIC_BEHIND: [u8; 2] = [0xff, 0x00];

// How many bytes the radio brings at a time.
const SCRAP: usize = 7;

// The selector that names every item.
const ALL_ITEMS: u32 = 0x0fff_0000;

#[derive(Drop)]
pub struct Story<'a, W> {
    heap: Global,
    out: &'a mut W,
    board: Board,
}

impl<'a, W: Write> Story<'a, W> {
    pub fn new(heap: Global, out: &'a mut W) -> anyhow::Result<Story<'a, W>> {
        let board = Board::new(heap)?;
        Ok(Story { heap, out, board })
    }

    pub fn say(&mut self, line: &str) -> anyhow::Result<()> {
        self.out.writeln(line)?;
        Ok(())
    }

    // The radio passes a frame of the office in scraps with static around it, and the board answers it; told is what the office reads then.
    pub fn pass(&mut self, frame: &[u8]) -> anyhow::Result<Vec<u8>> {
        let written = Bytes(frame);
        write!(self.out, "  the office writes {written}\n")?;
        let mut line = Vec::from_slice(self.heap, &STATIC_BEFORE)?;
        line.extend_from_slice(frame)?;
        line.extend_from_slice(&STATIC_BEHIND)?;
        self.bring(line.as_slice())?;
        let reply = self.answer_all()?;
        self.tell_reading(reply.as_slice())?;
        Ok(reply)
    }

    fn bring(&mut self, line: &[u8]) -> anyhow::Result<()> {
        write!(self.out, "  the radio brings  ")?;
        for scrap in line.chunks(SCRAP) {
            let bytes = Bytes(scrap);
            write!(self.out, "{bytes} |")?;
            self.board.take(scrap)?;
        }
        self.say("")
    }

    // Has the board answer until nothing whole is held; what it wrote is handed on.
    fn answer_all(&mut self) -> anyhow::Result<Vec<u8>> {
        let mut sent = Vec::new(self.heap);
        // kept: a loop has to be shown to end; no more frames are held than this
        for _ in 0..MAX_FRAME {
            let reply = self.board.answer(self.heap)?;
            let noise = reply.answered.noise;
            let Some(telling) = reply.answered.told else {
                write!(
                    self.out,
                    "  the board hears    noise {noise}, and nothing whole behind it\n"
                )?;
                break;
            };
            let class = telling.class;
            let id = telling.id;
            let verdict = telling.verdict;
            let number = verdict.number();
            write!(
                self.out,
                "  the board hears    noise {noise}, then {class:02x} {id:02x}: {verdict} {number}\n"
            )?;
            let bytes = Bytes(reply.bytes.as_slice());
            write!(self.out, "  the board sends   {bytes}\n")?;
            sent.extend_from_slice(reply.bytes.as_slice())?;
        }
        Ok(sent)
    }

    // What the office reads of what the board sent, message by message.
    fn tell_reading(&mut self, sent: &[u8]) -> anyhow::Result<()> {
        let mut rest = sent;
        // kept: a loop has to be shown to end; no more messages stand there than this
        for _ in 0..MAX_FRAME {
            let Ok(reading) = read(rest) else {
                break;
            };
            let said = Said(reading);
            write!(self.out, "  the office reads   {said}\n")?;
            rest = reading.rest;
        }
        Ok(())
    }

    // What RAM and Flash hold of the port and the rate, and the words of Flash's journal.
    pub fn tell_layers(&mut self) -> anyhow::Result<()> {
        for layer in [0, 2] {
            let name = if layer == 0 { "RAM" } else { "Flash" };
            write!(self.out, "  {name:<5} holds       ")?;
            for key in [PORT, RATE] {
                let value = self.board.look(layer, key)?;
                let held = Held { key, value };
                write!(self.out, "{held}")?;
            }
            self.say("")?;
        }
        let words = Words(self.board.flash_words());
        write!(self.out, "  Flash's words     {words}\n")?;
        Ok(())
    }

    // The logger asks for every item of RAM; what it files is the pairs of the reply.
    pub fn file_configuration(&mut self) -> anyhow::Result<Vec<Setting>> {
        let mut request = [0u8; MAX_FRAME];
        let length = write_get(&mut request, 0, 0, &[ALL_ITEMS])?;
        let reply = self.pass(request.get(..length).unwrap_or(&[]))?;
        let Ok(
            Reading {
                message: Message::Values { pairs, .. },
                ..
            },
        ) = read(reply.as_slice())
        else {
            bail!("the board sent no values");
        };
        let mut filed = Vec::new(self.heap);
        write!(self.out, "  filed is          ")?;
        for setting in pairs {
            let held = Held::from(setting);
            write!(self.out, "{held}")?;
            filed.push(setting)?;
        }
        self.say("")?;
        Ok(filed)
    }

    // A dip of the supply: what was held and any transaction are gone, and RAM is stacked again.
    pub fn restart(&mut self) -> anyhow::Result<()> {
        match self.board.restart()? {
            None => self.say("  RAM is stacked: BBR over Flash over the defaults, and fit"),
            Some(item) => {
                write!(
                    self.out,
                    "  item {item} is unfit, so RAM is the defaults alone\n"
                )?;
                Ok(())
            }
        }
    }

    // Compares what is filed with what is in force, value by value.
    pub fn compare(&mut self, filed: &[Setting]) -> anyhow::Result<()> {
        let mut same = 0usize;
        for setting in filed {
            if self.board.look(0, setting.key)? == Some(setting.value) {
                same = same.saturating_add(1);
            }
        }
        let count = filed.len();
        write!(
            self.out,
            "  {same} of {count} values that are filed are in force\n"
        )?;
        Ok(())
    }
}
