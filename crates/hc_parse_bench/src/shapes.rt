// Single statements of a shape: a front, a part that is repeated, and a back.
use hc_lex::NoMemory;
use std::alloc::Global;

/// A statement with one part again and again.
#[derive(Clone, Copy)]
pub struct Shape {
    /// By what it is called.
    pub name: &'static str,
    front: &'static str,
    part: &'static str,
    back: &'static str,
}

const fn make_shape(
    name: &'static str,
    front: &'static str,
    part: &'static str,
    back: &'static str,
) -> Shape {
    Shape {
        name,
        front,
        part,
        back,
    }
}

/// Shapes that may be as long as one likes.
pub fn long(alloc: Global) -> Result<Vec<Shape>, NoMemory> {
    Ok(Vec::from_array(
        alloc,
        [
            make_shape("items", "SELECT 1", ",1", ""),
            make_shape("members", "SELECT 1 IN (1", ",1", ")"),
            make_shape("sets", "UPDATE t SET a=1", ",a=1", ""),
            make_shape("calls", "SELECT 1", ",f(1)", ""),
            make_shape("nested", "SELECT 1", ",f(f(f(f(f(f(f(f(f(f(1))))))))))", ""),
            make_shape("opened", "SELECT ", "f(", ""),
            make_shape("parentheses", "SELECT ", "(", ""),
            make_shape("operators", "SELECT 1", "+1", ""),
            make_shape("names", "SELECT a", ",a", ""),
            make_shape("texts", "SELECT 'a'", ",'a'", ""),
            make_shape("rows", "INSERT INTO t VALUES (1)", ",(1)", ""),
            make_shape("terms", "SELECT a ORDER BY 1", ",1", ""),
        ],
    )?)
}

/// What opens a level, and what closes it.
pub fn nested(alloc: Global) -> Result<Vec<Shape>, NoMemory> {
    Ok(Vec::from_array(
        alloc,
        [
            make_shape("parentheses", "(", "1", ")"),
            make_shape("negations", "NOT ", "1", ""),
            make_shape("minuses", "- ", "1", ""),
            make_shape("pluses", "+", "1", ""),
            make_shape("calls", "f(", "1", ")"),
            make_shape("later arguments", "f(1,", "1", ")"),
            make_shape("members", "1 IN (", "1", ")"),
            make_shape("sums", "1+(", "1", ")"),
            make_shape("all levels", "1 OR 1 AND 1=1<1+1*1||(", "1", ")"),
        ],
    )?)
}

impl Shape {
    /// The part so often that the text has so many bytes.
    pub fn text(&self, alloc: Global, length: usize) -> Result<String, NoMemory> {
        let mut text = String::from_str(alloc, self.front)?;
        for _ in 0..length {
            if text.len() >= length {
                break;
            }
            text.push_str(self.part)?;
        }
        text.push_str(self.back)?;
        Ok(text)
    }

    /// A query with so many levels of this kind.
    pub fn levels(&self, alloc: Global, count: u32) -> Result<String, NoMemory> {
        let mut text = String::from_str(alloc, "SELECT ")?;
        for _ in 0..count {
            text.push_str(self.front)?;
        }
        text.push_str(self.part)?;
        for _ in 0..count {
            text.push_str(self.back)?;
        }
        Ok(text)
    }
}
