// The blocks that are open, and what a line makes of them.
ghost use Rattle.std.specs.Prelude.{◌≡◌, [], IfOk, map, reverse};
ghost use Rattle.stack_file.specs.Kept as spec;

use crate::FileFault;
use crate::notes::Notes;
use crate::said::Said;
use builder_core::{Line, Steps};
use rack_types::{Bytes, NoMemory};
use std::alloc::Global;
use stock_apps::App;
use stock_middleware::Ware;

// The most steps, and the most blocks around a step.
const STEPS: usize = 256;

const DEPTH: usize = 32;

// A block that isn't ended yet.
#[derive(Drop)]
pub(crate) enum Block {
    Place {
        place: Bytes,
        lines: Vec<Line<App>>,
        notes: Notes,
    },
    Cascade(Vec<App>),
}

// How many steps there are, the innermost block, and those around it from the outside to the inside.
#[derive(Drop)]
pub(crate) struct Standing {
    steps: usize,
    inner: Block,
    outer: Vec<Block>,
}

impl Standing {
    // Before the first line. The whole file is kept as a block.
    pub(crate) fn new(alloc: Global) -> Standing
        ensures { spec.kept result ≡ spec.kept_start }
    {
        Standing {
            steps: 0,
            inner: map_block(alloc, Bytes::new(Vec::new(alloc))),
            outer: Vec::new(alloc),
        }
    }

    // What a line makes of it by what it says, or the least rule that it breaks.
    pub(crate) fn step(
        self,
        alloc: Global,
        line: u32,
        said: Said,
    ) -> Result<Result<Standing, u8>, NoMemory>
        ensures { IfOk result (λ next. spec.kept_now next ≡ spec.kept_step line (spec.said_now said) (spec.kept self)) }
    {
        match said {
            Said::Nothing => Ok(Ok(self)),
            Said::Use(ware) => self.behind_use(ware),
            Said::Run(app) => self.behind_run(app),
            Said::Map(place) => self.behind_opening(map_block(alloc, place)),
            Said::Cascade => self.behind_opening(Block::Cascade(Vec::new(alloc))),
            Said::End => self.behind_end(line),
            Said::Breaks(rule) => Ok(Err(rule)),
        }
    }

    fn behind_use(self, ware: Ware) -> Result<Result<Standing, u8>, NoMemory>
        ensures { IfOk result (λ next. spec.kept_now next ≡ spec.kept_use ware (spec.kept self).steps (spec.kept self).outer (spec.kept self).inner) }
    {
        let Standing {
            steps,
            inner,
            outer,
        } = self;
        match inner {
            Block::Place {
                place,
                mut lines,
                notes,
            } => {
                lines.push(Line::Use(ware))?;
                let notes = notes.behind_use();
                Ok(counted(
                    steps,
                    Block::Place {
                        place,
                        lines,
                        notes,
                    },
                    outer,
                ))
            }
            Block::Cascade(_) => Ok(Err(7)),
        }
    }

    fn behind_run(self, app: App) -> Result<Result<Standing, u8>, NoMemory>
        ensures { IfOk result (λ next. spec.kept_now next ≡ spec.kept_run app (spec.kept self).steps (spec.kept self).outer (spec.kept self).inner) }
    {
        let Standing {
            steps,
            inner,
            outer,
        } = self;
        match inner {
            Block::Place {
                place,
                mut lines,
                notes,
            } => {
                lines.push(Line::Run(app))?;
                let notes = notes.behind_run();
                Ok(counted(
                    steps,
                    Block::Place {
                        place,
                        lines,
                        notes,
                    },
                    outer,
                ))
            }
            Block::Cascade(mut apps) => {
                apps.push(app)?;
                Ok(counted(steps, Block::Cascade(apps), outer))
            }
        }
    }

    fn behind_opening(self, block: Block) -> Result<Result<Standing, u8>, NoMemory>
        ensures { IfOk result (λ next. spec.kept_now next ≡ spec.kept_opening (spec.kept_block block) (spec.kept self).steps (spec.kept self).outer (spec.kept self).inner) }
    {
        let Standing {
            steps,
            inner,
            mut outer,
        } = self;
        match inner {
            Block::Place {
                place,
                lines,
                notes,
            } => {
                outer.push(Block::Place {
                    place,
                    lines,
                    notes,
                })?;
                Ok(counted(steps, block, outer))
            }
            Block::Cascade(_) => Ok(Err(7)),
        }
    }

    fn behind_end(self, line: u32) -> Result<Result<Standing, u8>, NoMemory>
        ensures { IfOk result (λ next. spec.kept_now next ≡ spec.kept_closing line (spec.kept self).steps (spec.kept self).inner (spec.kept self).outer) }
    {
        let Standing {
            steps,
            inner,
            mut outer,
        } = self;
        let Some(around) = outer.pop() else {
            return Ok(Err(6));
        };
        let inner = around_ended(line, inner, around)?;
        Ok(Ok(Standing {
            steps,
            inner,
            outer,
        }))
    }

    // The steps, where this is the end of the file and the line the one behind the last: or the rule that
    // stands there, or the first block without an application.
    pub(crate) fn finish(self, line: u32) -> Result<Steps<App>, FileFault>
        ensures { spec.end_now result ≡ spec.kept_end line (spec.kept self).inner (spec.kept self).outer }
    {
        let Standing { inner, outer, .. } = self;
        let Block::Place { lines, notes, .. } = inner else {
            return Err(FileFault { line, rule: 6 });
        };
        if !outer.is_empty() {
            return Err(FileFault { line, rule: 6 });
        }
        match notes.lacking(line) {
            Some(line) => Err(FileFault { line, rule: 8 }),
            None => Ok(Steps { lines }),
        }
    }
}

// A block for a place, without lines.
fn map_block(alloc: Global, place: Bytes) -> Block
    ensures { spec.kept_block result ≡ spec.KeptPlace place [] spec.fresh }
{
    Block::Place {
        place,
        lines: Vec::new(alloc),
        notes: Notes::fresh(),
    }
}

// One step more, where they are not too many and none is too deep.
fn counted(steps: usize, inner: Block, outer: Vec<Block>) -> Result<Standing, u8>
    ensures { spec.kept_now result ≡ spec.kept_count steps (spec.kept_block inner) (reverse (map spec.kept_block outer.items)) }
{
    if steps >= STEPS || outer.len() > DEPTH {
        return Err(9);
    }
    Ok(Standing {
        steps: steps + 1,
        inner,
        outer,
    })
}

// The block around one that this line ends. A cascade holds no block.
#[tactic(auto, using(crate::proofs::BlockLemmas::blocks))]
fn around_ended(line: u32, inner: Block, around: Block) -> Result<Block, NoMemory>
    ensures { IfOk result (λ block. spec.kept_block block ≡ spec.kept_around line (spec.kept_block inner) (spec.kept_block around)) }
{
    let Block::Place {
        place,
        mut lines,
        notes,
    } = around
    else {
        return Ok(around);
    };
    match inner {
        Block::Cascade(apps) => {
            lines.push(Line::Cascade(apps))?;
            let notes = notes.behind_run();
            Ok(Block::Place {
                place,
                lines,
                notes,
            })
        }
        Block::Place {
            place: inside,
            lines: block,
            notes: within,
        } => {
            lines.push(Line::Map(inside, Steps { lines: block }))?;
            let notes = notes.behind_map(line, within);
            Ok(Block::Place {
                place,
                lines,
                notes,
            })
        }
    }
}
