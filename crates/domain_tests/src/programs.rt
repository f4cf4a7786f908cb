//! Programs from a seed.
ghost use Rattle.std.specs.Prelude.{◌<◌};

use seeded_numbers::Random;
use std::alloc::{AllocError, Global};

/// The variables of main, and of the procedure, whose first two are inputs and whose next two are outputs.
const NAMES: [&str; 6] = ["a", "b", "c", "d", "e", "f"];

/// What comes before the statements of main.
const VARIABLES: &str = "var a:int, b:int, c:int, d:int, e:int, f:int;\nbegin\n";

const CONSTANTS: [&str; 8] = [
    "0",
    "1",
    "2",
    "3",
    "7",
    "10",
    "1152921504606846975",
    "2305843009213693952",
];

const RELATIONS: [&str; 6] = ["==", "!=", "<", "<=", ">", ">="];

/// A text that grows by random choices.
#[derive(Drop)]
pub(crate) struct Writer {
    text: String,
    random: Random,
}

impl Writer {
    pub(crate) fn new(alloc: Global, seed: u64) -> Writer {
        Writer {
            text: String::new(alloc),
            random: Random::new(seed),
        }
    }

    /// A number below n.
    fn choose(&mut self, n: u32) -> u32
        requires { 0 < n }
        ensures { result < n }
    {
        self.random.below(n)
    }

    fn put(&mut self, text: &str) -> Result<(), AllocError> {
        self.text.push_str(text)?;
        Ok(())
    }

    fn variable(&mut self) -> Result<(), AllocError> {
        let k = self.choose(6);
        self.put(NAMES[k as usize])
    }

    fn atom(&mut self) -> Result<(), AllocError> {
        if self.choose(3) == 0 {
            let k = self.choose(8);
            return self.put(CONSTANTS[k as usize]);
        }
        self.variable()
    }

    /// A number: at most three atoms with signs between them, mostly one.
    fn number(&mut self) -> Result<(), AllocError> {
        if self.choose(6) == 0 {
            self.put("-")?;
        }
        self.atom()?;
        let more = self.choose(5) / 2;
        for _ in 0..more {
            match self.choose(6) {
                0 => self.put(" * ")?,
                1 => self.put(" - ")?,
                2 => self.put(" - ")?,
                _ => self.put(" + ")?,
            }
            self.atom()?;
        }
        Ok(())
    }

    fn comparison(&mut self) -> Result<(), AllocError> {
        if self.choose(8) == 0 {
            return self.put("random");
        }
        self.number()?;
        let k = self.choose(6);
        self.put(" ")?;
        self.put(RELATIONS[k as usize])?;
        self.put(" ")?;
        self.number()
    }

    fn condition(&mut self) -> Result<(), AllocError> {
        if self.choose(4) == 0 {
            self.put("not ")?;
            return self.comparison();
        }
        self.comparison()?;
        match self.choose(5) {
            0 => self.put(" and ")?,
            1 => self.put(" or ")?,
            _ => return Ok(()),
        }
        self.comparison()
    }

    /// A call of p: two different targets, and two arguments, which may be the same.
    fn call(&mut self) -> Result<(), AllocError> {
        let first = self.choose(6);
        let second = (first + 1 + self.choose(5)) % 6;
        self.put("(")?;
        self.put(NAMES[first as usize])?;
        self.put(", ")?;
        self.put(NAMES[second as usize])?;
        self.put(") = p(")?;
        self.variable()?;
        self.put(", ")?;
        self.variable()?;
        self.put(");\n")
    }

    fn assignment(&mut self) -> Result<(), AllocError> {
        self.variable()?;
        self.put(" = ")?;
        match self.choose(6) {
            0 => self.put("random")?,
            1 => self.variable()?,
            _ => self.number()?,
        }
        self.put(";\n")
    }

    fn assumption(&mut self) -> Result<(), AllocError> {
        self.put("assume ")?;
        self.condition()?;
        self.put(";\n")
    }

    /// A bound of a variable, or of the sum or difference of two, that 0 meets.
    fn bound(&mut self) -> Result<(), AllocError> {
        self.variable()?;
        match self.choose(3) {
            0 => self.put(" + ")?,
            1 => self.put(" - ")?,
            _ => self.put(" + 0 * ")?,
        }
        self.variable()?;
        match self.choose(2) {
            0 => self.put(" <= ")?,
            _ => self.put(" >= -")?,
        }
        let k = self.choose(8);
        self.put(CONSTANTS[k as usize])
    }

    /// The assumption of three bounds.
    fn bounds(&mut self) -> Result<(), AllocError> {
        self.put("assume ")?;
        self.bound()?;
        self.put(" and ")?;
        self.bound()?;
        self.put(" and ")?;
        self.bound()?;
        self.put(";\n")
    }

    fn simple(&mut self) -> Result<(), AllocError> {
        match self.choose(6) {
            0 => self.assumption(),
            1 => self.call(),
            _ => self.assignment(),
        }
    }

    /// So many statements that have none inside.
    fn simples(&mut self, count: u32) -> Result<(), AllocError> {
        for _ in 0..count {
            self.simple()?;
        }
        Ok(())
    }

    fn branch(&mut self) -> Result<(), AllocError> {
        self.put("if ")?;
        self.condition()?;
        self.put(" then\n")?;
        let count = self.choose(3);
        self.simples(count)?;
        self.put("else\n")?;
        let count = self.choose(3);
        self.simples(count)?;
        self.put("endif;\n")
    }

    fn repetition(&mut self) -> Result<(), AllocError> {
        self.put("while ")?;
        self.condition()?;
        self.put(" do\n")?;
        let count = 1 + self.choose(3);
        self.simples(count)?;
        self.put("done;\n")
    }

    fn statements(&mut self, count: u32) -> Result<(), AllocError> {
        for _ in 0..count {
            match self.choose(6) {
                0 => self.branch()?,
                1 => self.repetition()?,
                _ => self.simple()?,
            }
        }
        Ok(())
    }

    /// A program over six variables that has so many assignments alone.
    pub(crate) fn assignments(mut self, count: u32) -> Result<String, AllocError> {
        self.put(VARIABLES)?;
        for _ in 0..count {
            self.assignment()?;
        }
        self.put("end\n")?;
        Ok(self.text)
    }

    /// A program over six variables that has so many assumptions alone.
    pub(crate) fn assumptions(mut self, count: u32) -> Result<String, AllocError> {
        self.put(VARIABLES)?;
        for _ in 0..count {
            match self.choose(4) {
                0 => self.assumption()?,
                _ => self.bounds()?,
            }
        }
        self.put("end\n")?;
        Ok(self.text)
    }

    /// The whole program: the procedure p, which may call itself, and main.
    pub(crate) fn program(mut self) -> Result<String, AllocError> {
        self.put("proc p(a:int, b:int) returns (c:int, d:int)\nvar e:int, f:int;\nbegin\n")?;
        let count = 1 + self.choose(5);
        self.statements(count)?;
        self.put("end\n")?;
        self.put(VARIABLES)?;
        let count = 3 + self.choose(8);
        self.statements(count)?;
        self.put("end\n")?;
        Ok(self.text)
    }
}
