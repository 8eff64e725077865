// A script of ordinary statements.
use hc_lex::NoMemory;
use std::alloc::Global;

const STATEMENTS: [&str; 8] = [
    "CREATE TABLE IF NOT EXISTS account (id INTEGER PRIMARY KEY, owner TEXT NOT NULL, balance INTEGER NOT NULL, note TEXT, UNIQUE (owner, note)) STRICT;\n",
    "INSERT INTO account (id, owner, balance, note) VALUES (1, 'Ada Lovelace', 1200, 'opened in the spring'), (2, 'Alan Turing', 800, NULL), (3, 'Grace Hopper', -15, X'00FF');\n",
    "SELECT a.id, a.owner, sum(t.amount) AS total FROM account AS a JOIN transfer AS t ON t.account = a.id WHERE a.balance >= 100 AND t.amount <> 0 GROUP BY a.id, a.owner HAVING count(*) > 2 ORDER BY total DESC LIMIT 10 OFFSET 20;\n",
    "UPDATE account SET balance = balance - 25 * 2, note = owner || ' paid' WHERE id = 17 AND balance BETWEEN 50 AND 1000;\n",
    "DELETE FROM transfer WHERE account IN (4, 8, 15, 16, 23, 42) OR note LIKE '%void%';\n",
    "SELECT id, balance FROM account WHERE id = 12;\n",
    "INSERT INTO transfer VALUES (1001, 12, 250);\n",
    "BEGIN CONCURRENT; SELECT count(*) FROM account WHERE NOT (balance < 0) AND owner IS NOT NULL; COMMIT;\n",
];

/// The statements in turn, until the script has so many bytes.
pub fn ordinary(alloc: Global, length: usize) -> Result<String, NoMemory> {
    let mut text = String::new(alloc);
    for at in 0..length {
        if text.len() >= length {
            break;
        }
        text.push_str(STATEMENTS[at % 8])?;
    }
    Ok(text)
}
