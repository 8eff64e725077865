/// A statement over the table `t(id, v)`, in which both columns are integers and `id` is the key.
#[derive(Clone, Copy, Debug, PartialEq, Eq)]
pub enum Statement {
    /// `INSERT INTO t VALUES(ID,V);`, with the two numbers written out.
    Insert { id: i64, v: i64 },
    /// `SELECT v FROM t WHERE id=ID;`, with the number written out.
    Select { id: i64 },
}
